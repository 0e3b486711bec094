// Whole recordings: what holds of every list of calls from a new state on, and how many outputs a
// closed recording has.
//
// specs/Recording.antt says what a recording is, specs/Demand3.antt what is claimed of each, and
// proofs/Theorems.antt proves it from what `new`, `source_hz` and `process_float` ensure, over any sane
// quality row. The code is `closed_total` alone: it tells the count before a sample is read.
#![tactic(auto)]

ghost use Rattle.std.specs.Prelude.{◌≡◌, ◌≤◌};
ghost use Rattle.ratio.specs.Lowest.{lowest};
ghost use Rattle.sizes.specs.Sizes.{InLimits};
ghost use Rattle.rates.specs.Rated.{closed_total};
ghost use Rattle.recording.specs.Totals.{total_told, max_samples, closed_total_told};

use ratio::simplify;
use resampler::{Consumed, Refusal, Written};

// The most samples of a recording whose total is told. Times any rate in limits they stay within 58
// bits, so nothing overflows.
const MAX_SAMPLES: u64 = 1 << 40;

// Why a closed recording's total is not told. Refused: a rate is out of limits. TooMany: there are more
// samples than a total is told for, which no number of document 01 fits.
#[derive(Clone, Copy, PartialEq, Eq)]
pub enum TotalError {
    Refused(Refusal),
    TooMany,
}

// How many outputs a closed recording has, worked out from its length and its rates alone. `samples` are
// those of the recording itself, without the zeros that close it: those are read too, but add nothing
// here. The rates are judged before the count, so a bad rate gets refusal 1 however many samples there are.
// The two rates stay apart, as README and C have them.
pub fn closed_total(samples: Consumed, source: u32, target: u32) -> Result<Written, TotalError>
    ensures { total_told result ≡ closed_total_told source target samples.0 }
{
    if !sizes::in_limits(source) || !sizes::in_limits(target) {
        return Err(TotalError::Refused(Refusal::Rate));
    }
    if MAX_SAMPLES < samples.0 {
        return Err(TotalError::TooMany);
    }
    Ok(Written(outputs_of(samples.0, source, target)))
}

// Output k stands at k * num / den samples, and the recording has each one that stands before its
// end: that many are samples * den / num, rounded up.
fn outputs_of(samples: u64, source: u32, target: u32) -> u64
    requires { InLimits source × InLimits target × (samples ≤ max_samples) }
    ensures { result ≡ closed_total (lowest source target) samples }
{
    let ratio = simplify(source as u64, target as u64);
    let num = ratio.num;
    let den = ratio.den;
    (samples * den + num - 1) / num
}
