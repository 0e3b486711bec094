// One output and one round over samples that stand in the history.
//
// A round asks that its numbers fit the lent slices, which a state that belongs together always
// does; nothing is tested at run time. Where the samples come from, and how many rounds a call runs,
// is decided above.
#![tactic(auto)]

mod runs;

ghost use Rattle.std.specs.Prelude.{◌≡◌, ℕ, ◌+◌, ◌^◌, ◌<◌, ◌≤◌, length};
ghost use Rattle.timeline.specs.Numbers.{next};
ghost use Rattle.timeline.specs.Samples.{output, play_round};
ghost use Rattle.rates.specs.Rated.{rate_with};
ghost use Rattle.rounds.specs.Output.{phase_of, weigh_of};
ghost use Rattle.rounds.specs.Rounds.{place_of, turn_of, Playable, RoundFits, Wrote};

use kernel::Phase;
use rates::{Kernel, Setting};

// How many samples were read, and how many outputs were made. Two types, so that one is never taken
// for the other.
#[derive(Clone, Copy)]
pub struct Consumed(pub u64);

#[derive(Clone, Copy)]
pub struct Written(pub u64);

// The entry of the history at which the next output's window starts, and the output's phase. It has no
// den with it, so that the phase is below den stays a clause.
#[derive(Clone, Copy)]
pub struct Place {
    pub position: usize,
    pub phase: usize,
}

// What was done, and the place where it ended.
#[derive(Clone, Copy)]
pub struct Turn {
    pub consumed: Consumed,
    pub written: Written,
    pub place: Place,
}

// What makes outputs: a setting that can be played, the history, and at least as many coefficients as
// the setting counts.
#[derive(Clone, Copy)]
struct Player<'a> {
    setting: Setting,
    mem: &'a [f32],
    coefs: &'a [f32],
    ghost playable: { Playable setting },
    ghost table: { setting.coefs ≤ length coefs.now },
}

impl<'a> Player<'a> {
    // The phase of an output from its number. Without a kernel there is no output: no caller has
    // that.
    fn phase_at(&self, phase: usize) -> Phase
        requires { phase < self.now.setting.den }
        ensures { result ≡ phase_of self.now.setting phase }
    {
        let setting = self.setting;
        match setting.kernel {
            Kernel::Unset | Kernel::Direct => Phase::Direct(phase),
            Kernel::Interpolated => {
                let den = setting.den as usize;
                let product = phase * setting.oversample as usize;
                let frac = casts::small((product % den) as u32) / casts::small(setting.den);
                Phase::Interpolated(product / den, frac)
            }
        }
    }

    // The output at a place: its window is the part of the history from the position on.
    fn output_at(&self, place: Place) -> f32
        requires { (place.phase < self.now.setting.den) × (place.position + self.now.setting.filt_len ≤ length self.now.mem.now) }
        ensures { result ≡ output (weigh_of self.now.setting self.now.coefs.now) (rate_with self.now.setting 0) self.now.mem.now (place_of place) }
    {
        let phase = self.phase_at(place.phase);
        let at = place.position;
        let n = self.setting.filt_len as usize;
        kernel::step(
            phase,
            &self.mem[at..],
            self.coefs,
            n,
            self.setting.oversample as usize,
        )
    }

    // The place of the next output: num/den further, with carry.
    fn advance(&self, place: Place) -> Place
        requires { (place.phase < self.now.setting.den) × (place.position ≤ 2 ^ 33) }
        ensures { place_of result ≡ next (rate_with self.now.setting 0) (place_of place) }
    {
        let position = place.position + self.setting.int_advance as usize;
        let phase = place.phase + self.setting.frac_advance as usize;
        let den = self.setting.den as usize;
        if phase >= den {
            return Place {
                position: position + 1,
                phase: phase - den,
            };
        }
        Place { position, phase }
    }
}

// One round over the in_len samples that stand at entry n - 1 of the history on: the outputs, then
// the history moves down by what was consumed. How much of the history is used, alloc, does not
// matter to a round.
// Its parameters stay apart: docs/DECISIONS.md and docs/CLAIMS.md name it, with what it asks.
pub fn process_native(
    setting: Setting,
    place: Place,
    mem: &mut [f32],
    coefs: &[f32],
    in_len: usize,
    out: &mut [f32],
) -> Turn
    requires { RoundFits setting (place_of place) in_len (length mem.old) (length coefs.now) }
    ensures { (alloc : ℕ) → Wrote (play_round (weigh_of setting coefs.now) (rate_with setting alloc) in_len (length out.old) (place_of place) mem.old) (turn_of result) mem.new out.old out.new }
{
    let player = Player {
        setting,
        mem: &mem[..],
        coefs,
    };
    let made = player.make_outputs(place, in_len, out);
    let end = made.place;
    let consumed = end.position.min(in_len);
    history::move_within(mem, consumed, 0, setting.filt_len as usize - 1);
    let place = Place {
        position: end.position - consumed,
        phase: end.phase,
    };
    Turn {
        consumed: Consumed(consumed as u64),
        written: Written(made.written as u64),
        place,
    }
}
