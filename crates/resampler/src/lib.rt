// The resampler: one channel of f32, from any source rate in limits to the state's target rate.
//
// Every function answers for every argument and none has a `requires`: a bad call gets its refusal
// and the state as it was given, `told` counts zero, and its slices keep their contents. The state is a
// plain struct that goes in by value and comes back in the answer; the history and the coefficients
// are lent. How near the outputs come to the signal is not said: each is its definition's f32.
//
// State and slices are no one struct: C lends the slices anew at each call (`marshdeck_process`).
#![tactic(auto)]

ghost use Rattle.std.specs.Prelude.{◌≡◌};
ghost use Rattle.quality.specs.House.{house};
ghost use Rattle.resampler.specs.Answers.{told, accepted, Judged};
ghost use Rattle.resampler.specs.Entries.{new_told, skip_told};
ghost use Rattle.resampler.specs.Promises.{SetsRate, Processes, Resets};

pub use judge::Refusal;
pub use process::Accepted;
use quality::QualityMapping;
pub use rates::Kernel;
pub use rounds::{Consumed, Written};
pub use state::ResamplerState;

// What a refused call gives: why, and the state as it was given, or for a refused new state the one
// whose numbers are all 0.
#[derive(Clone, Copy)]
pub struct Refused {
    pub refusal: Refusal,
    pub state: ResamplerState,
}

// What a call answers.
pub type Answer = Result<Accepted, Refused>;

// The state that an answer carries, whether it refuses or not.
pub fn state_of(answer: Answer) -> ResamplerState
    ensures { result ≡ (told answer).state }
{
    match answer {
        Ok(accepted) => accepted.state,
        Err(refused) => refused.state,
    }
}

// The verdict on a call with this state, which a refusal gives back as it was given.
fn judged(verdict: Result<(), Refusal>, state: ResamplerState) -> Result<(), Refused>
    ensures { Judged verdict state result }
{
    verdict.map_err(|refusal| Refused { refusal, state })
}

// An accepted call that read and wrote nothing.
fn uncounted(state: ResamplerState) -> Answer
    ensures { told result ≡ accepted state 0 0 }
{
    Ok(Accepted {
        state,
        consumed: Consumed(0),
        written: Written(0),
    })
}

// A new state for a target rate. Refusal 1.
pub fn new(target: u32) -> Answer
    ensures { told result ≡ new_told target }
{
    let state = ResamplerState::zero();
    judged(judge::judge_new(target), state)?;
    uncounted(ResamplerState::fresh(target))
}

// Sets the source rate. Refusals 7, 1, 2, 3, in that order; the rate that is set already is accepted
// with no look at the slices. What lies past alloc and past the table stays.
pub fn source_hz(state: ResamplerState, source: u32, mem: &mut [f32], coefs: &mut [f32]) -> Answer
    ensures { SetsRate house state source mem.old coefs.old result mem.new coefs.new }
{
    let row = QualityMapping::house();
    let verdict = judge::judge_rate(row, state, source, mem.len(), coefs.len());
    judged(verdict, state)?;
    if state.source == source {
        return uncounted(state);
    }
    let updated = update::update_filter(row, state, source, mem, coefs);
    uncounted(updated)
}

// Resamples: reads from the input and writes to the output until one of them is used up. Refusals 7,
// 6, 2, 3, 4, 5, in that order. The output past what was written stays.
pub fn process_float(
    state: ResamplerState,
    mem: &mut [f32],
    coefs: &[f32],
    input: &[f32],
    out: &mut [f32],
) -> Answer
    ensures { Processes house state mem.old coefs.now input.now out.old result mem.new out.new }
{
    let row = QualityMapping::house();
    let verdict = judge::judge_process(row, state, mem.len(), coefs.len(), input.len(), out.len());
    judged(verdict, state)?;
    Ok(process::process(row, state, mem, coefs, input, out))
}

// Makes the state ready for another stream at the same rate. Refusals 7, 2. The position becomes 0,
// not n/2, and a state that was started stays so, as in the Rust.
pub fn reset_mem(state: ResamplerState, mem: &mut [f32]) -> Answer
    ensures { Resets house state mem.old result mem.new }
{
    let row = QualityMapping::house();
    judged(judge::judge_reset(row, state, mem.len()), state)?;
    history::fill_zero(mem, 0, state.mem_alloc_size as usize);
    uncounted(ResamplerState {
        last_sample: 0,
        samp_frac_num: 0,
        magic_samples: 0,
        ..state
    })
}

// Moves the position to the middle of the filter, so that a stream does not begin with the filter's
// run-in. Refusal 7. Without a rate the position is 0.
pub fn skip_zeros(state: ResamplerState) -> Answer
    ensures { told result ≡ skip_told house state }
{
    let row = QualityMapping::house();
    judged(judge::judge_skip(row, state), state)?;
    let (phase, magic) = (state.samp_frac_num, state.magic_samples);
    uncounted(state.moved_to(state.started, state.filt_len / 2, phase, magic))
}
