// One call on samples: the round over the magic samples, then rounds over chunks of the input.
//
// A call asks that its numbers fit the lent slices, which a state that belongs together always does;
// nothing is tested at run time. Refusals are decided above.
#![tactic(auto)]

ghost use Rattle.std.specs.Prelude.{ℕ, length};
ghost use Rattle.timeline.specs.Samples.{play_chunk, play_rounds, play_magic, play_call};
ghost use Rattle.rates.specs.Rated.{rate_with};
ghost use Rattle.rounds.specs.Output.{weigh_of};
ghost use Rattle.rounds.specs.Rounds.{place_of, turn_of, RoundFits, Wrote};
ghost use Rattle.calls.specs.Calls.{called_of, CallFits};

use rates::Setting;
use rounds::{Consumed, Place, Turn, Written, process_native};

// What a call did, and how many magic samples it left.
#[derive(Clone, Copy)]
pub struct Called {
    pub turn: Turn,
    pub magic: usize,
}

// What the rounds of one call are played with: the setting, how much of the history is used, and the
// coefficients. That all fits stays a clause, since it speaks of the place and of what is lent for writing.
#[derive(Clone, Copy)]
struct Call<'a> {
    setting: Setting,
    alloc: usize,
    coefs: &'a [f32],
}

impl<'a> Call<'a> {
    // The next chunk of the input is copied to entry n - 1 of the history on, and a round runs over it.
    fn process_chunk(&self, place: Place, mem: &mut [f32], input: &[f32], out: &mut [f32]) -> Turn
        requires { CallFits self.now.setting self.now.alloc 0 (place_of place) (length mem.old) (length self.now.coefs.now) }
        ensures { Wrote (play_chunk (weigh_of self.now.setting self.now.coefs.now) (rate_with self.now.setting self.now.alloc) input.now (length out.old) (place_of place) mem.old) (turn_of result) mem.new out.old out.new }
    {
        let n = self.setting.filt_len as usize;
        let count = input.len().min(self.alloc - n - 1);
        history::copy_in(mem, n - 1, &input[..count]);
        process_native(self.setting, place, mem, self.coefs, count, out)
    }

    // Chunk after chunk, until all of the input is read or the output is full; without input or without
    // room there is no round. A round is lent only the part of the output that is not yet written.
    fn process_chunks(
        &self,
        mut place: Place,
        mem: &mut [f32],
        input: &[f32],
        out: &mut [f32],
    ) -> Turn
        requires { CallFits self.now.setting self.now.alloc 0 (place_of place) (length mem.old) (length self.now.coefs.now) }
        ensures { Wrote (play_rounds (weigh_of self.now.setting self.now.coefs.now) (rate_with self.now.setting self.now.alloc) input.now (length out.old) (place_of place) mem.old) (turn_of result) mem.new out.old out.new }
    {
        let mut read = 0;
        let mut done = 0;
        // A turn goes on by what its round read and wrote, so no range or iterator is plainer.
        while read < input.len() && done < out.len() {
            let turn = self.process_chunk(place, mem, &input[read..], &mut out[done..]);
            read += turn.consumed.0 as usize;
            done += turn.written.0 as usize;
            place = turn.place;
        }
        Turn {
            consumed: Consumed(read as u64),
            written: Written(done as u64),
            place,
        }
    }

    // One round over the magic samples, if there are any, even without room. Those left move down, in
    // order, to entry n - 1 on.
    fn process_magic(&self, magic: usize, place: Place, mem: &mut [f32], out: &mut [f32]) -> Called
        requires { RoundFits self.now.setting (place_of place) magic (length mem.old) (length self.now.coefs.now) }
        ensures { (alloc : ℕ) → Wrote (play_magic (weigh_of self.now.setting self.now.coefs.now) (rate_with self.now.setting alloc) magic (length out.old) (place_of place) mem.old) (called_of result) mem.new out.old out.new }
    {
        if magic == 0 {
            let turn = Turn {
                consumed: Consumed(0),
                written: Written(0),
                place,
            };
            return Called { turn, magic };
        }
        let turn = process_native(self.setting, place, mem, self.coefs, magic, out);
        let consumed = turn.consumed.0 as usize;
        let left = magic - consumed;
        let at = self.setting.filt_len as usize - 1;
        history::move_within(mem, at + consumed, at, left);
        // They are no samples of the input, so none counts as consumed.
        let turn = Turn {
            consumed: Consumed(0),
            ..turn
        };
        Called { turn, magic: left }
    }
}

// One call. With magic samples left after their round nothing is read from the input.
// Its parameters stay apart: docs/DECISIONS.md and docs/CLAIMS.md name it, with what it asks.
pub fn process_call(
    setting: Setting,
    alloc: usize,
    magic: usize,
    place: Place,
    mem: &mut [f32],
    coefs: &[f32],
    input: &[f32],
    out: &mut [f32],
) -> Called
    requires { CallFits setting alloc magic (place_of place) (length mem.old) (length coefs.now) }
    ensures { Wrote (play_call (weigh_of setting coefs.now) (rate_with setting alloc) magic input.now (length out.old) (place_of place) mem.old) (called_of result) mem.new out.old out.new }
{
    let call = Call {
        setting,
        alloc,
        coefs,
    };
    let first = call.process_magic(magic, place, mem, out);
    if first.magic > 0 {
        return first;
    }
    let place = first.turn.place;
    let done = first.turn.written.0 as usize;
    let turn = call.process_chunks(place, mem, input, &mut out[done..]);
    let turn = Turn {
        written: Written(done as u64 + turn.written.0),
        ..turn
    };
    Called { turn, magic: 0 }
}
