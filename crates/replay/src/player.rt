// Plays an order: one call of the resampler, as a program in C makes it, or a change to what is lent to it.
//
// The state is the flat one, so that a script can give it any numbers at all, also a kernel that there is
// none of.
use crate::order::{Lent, Order};
use crate::segment::{BLOCK, Samples};
use crate::{Fault, segment};
use arrayvec::ArrayVec;
use flat::{FlatAnswer, FlatState};
use state::ResamplerState;

// The longest that a lent slice can be.
const MOST_LENT: usize = 8192;

// What an output entry holds before a call, so that one that is left alone shows.
const UNWRITTEN: u32 = 0x4b1d_f00d;

// What the last order answered, with the state that it left; what is lent; what the last line named; and the
// output of the last order, which is empty where that was no call of `process`.
#[derive(Drop)]
pub struct Player {
    pub answer: FlatAnswer,
    pub history: ArrayVec<f32, MOST_LENT>,
    pub coefs: ArrayVec<f32, MOST_LENT>,
    pub input: Samples,
    pub output: Samples,
}

impl Player {
    // Nothing is lent and nothing was played.
    pub fn new() -> Self {
        Player {
            answer: no_call(ResamplerState::zero().into()),
            history: ArrayVec::new(),
            coefs: ArrayVec::new(),
            input: Samples::new(),
            output: Samples::new(),
        }
    }

    // Plays an order whose samples are the input.
    pub fn play(&mut self, order: Order) -> Result<(), Fault> {
        let state = self.answer.state;
        self.output.clear();
        self.answer = match order {
            Order::New { target } => capi::marshdeck_new(target),
            Order::Rate { source } => capi::marshdeck_set_rate(
                state,
                source,
                self.history.as_mut_slice(),
                self.coefs.as_mut_slice(),
            ),
            Order::Process { room } => self.process(room)?,
            Order::Lend {
                history,
                coefs,
                filler,
            } => {
                resize(&mut self.history, history, filler)?;
                resize(&mut self.coefs, coefs, filler)?;
                no_call(state)
            }
            Order::Poke { lent, index } => {
                self.poke(lent, index)?;
                no_call(state)
            }
            Order::Reset => capi::marshdeck_reset(state, self.history.as_mut_slice()),
            Order::Skip => capi::marshdeck_skip(state),
            Order::Forge { state } => no_call(state),
        };
        Ok(())
    }

    // The output is made ready before anything is refused, so that a refused call shows it untouched.
    fn process(&mut self, room: u32) -> Result<FlatAnswer, Fault> {
        resize(&mut self.output, room, bits::float_of(UNWRITTEN))?;
        Ok(capi::marshdeck_process(
            self.answer.state,
            self.history.as_mut_slice(),
            self.coefs.as_slice(),
            self.input.as_slice(),
            self.output.as_mut_slice(),
        ))
    }

    // The poked slice takes the input.
    fn poke(&mut self, lent: Lent, index: u32) -> Result<(), Fault> {
        match lent {
            Lent::History => poke(self.history.as_mut_slice(), index, self.input.as_slice()),
            Lent::Coefs => poke(self.coefs.as_mut_slice(), index, self.input.as_slice()),
        }
    }
}

// Entries from `index` on take others. None of them is past the end.
fn poke(entries: &mut [f32], index: u32, others: &[f32]) -> Result<(), Fault> {
    let from = index as usize;
    let to = from + others.len();
    if to > entries.len() {
        return Err(Fault::BadLine);
    }
    entries[from..to].copy_from_slice(others);
    Ok(())
}

// The answer of an operation that is no call.
fn no_call(state: FlatState) -> FlatAnswer {
    FlatAnswer {
        refusal: 0,
        consumed: 0,
        written: 0,
        state,
    }
}

// What is cut off is gone: a slice that grows again is filled.
fn resize<const N: usize>(
    entries: &mut ArrayVec<f32, N>,
    len: u32,
    filler: f32,
) -> Result<(), Fault> {
    let len = len as usize;
    entries.truncate(len);
    let block = [filler; BLOCK];
    for done in (entries.len()..len).step_by(BLOCK) {
        segment::extend(entries, &block[..(len - done).min(BLOCK)])?;
    }
    Ok(())
}
