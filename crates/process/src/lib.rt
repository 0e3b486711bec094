// One call of the resampler, once it is accepted: the state's numbers go into the call and come back
// moved.
//
// It refuses nothing and tests nothing: it asks that the call was accepted, from which all that its
// parts ask for follows.
#![tactic(auto)]

ghost use Rattle.std.specs.Prelude.{◌≡◌, length};
ghost use Rattle.quality.specs.Quality.{Sane};
ghost use Rattle.judge.specs.Verdicts.{accept, process_verdict};
ghost use Rattle.process.specs.Process.{started_after, Plays};

use calls::process_call;
use quality::QualityMapping;
use rounds::{Consumed, Place, Written};
use state::ResamplerState;

// What an accepted call gives: the state for the next one, how many samples were read and how many
// outputs made.
#[derive(Clone, Copy)]
pub struct Accepted {
    pub state: ResamplerState,
    pub consumed: Consumed,
    pub written: Written,
}

// Started becomes 1 where a round runs: over magic samples, or over input with room for an output.
fn started_after(state: ResamplerState, in_len: usize, room: usize) -> u32
    ensures { result ≡ started_after state in_len room }
{
    if state.magic_samples > 0 || in_len > 0 && room > 0 {
        return 1;
    }
    state.started
}

// Makes the call. What the rates gave stays. That the row is sane stays a clause, as in `judge`, and the
// slices stay apart, as in `resampler`.
pub fn process(
    row: QualityMapping,
    state: ResamplerState,
    mem: &mut [f32],
    coefs: &[f32],
    input: &[f32],
    out: &mut [f32],
) -> Accepted
    requires { Sane row × (process_verdict row state (length mem.old) (length coefs.now) (length input.now) (length out.old) ≡ accept) }
    ensures { Plays state mem.old coefs.now input.now out.old result mem.new out.new }
{
    let setting = state.setting();
    let place = Place {
        position: state.last_sample as usize,
        phase: state.samp_frac_num as usize,
    };
    let alloc = state.mem_alloc_size as usize;
    let magic = state.magic_samples as usize;
    let started = started_after(state, input.len(), out.len());
    let called = process_call(setting, alloc, magic, place, mem, coefs, input, out);
    let turn = called.turn;
    let place = turn.place;
    let left = called.magic as u32;
    Accepted {
        state: state.moved_to(started, place.position as u32, place.phase as u32, left),
        consumed: turn.consumed,
        written: turn.written,
    }
}
