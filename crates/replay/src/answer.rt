// The answer line: the numbers that an order left and the outputs, written as text.
//
// Each piece is written by itself, where it is made, and one that could not be written keeps no later one
// back: docs/DECISIONS.md says why.
use crate::Fault;
use crate::player::Player;
use flat::{FlatAnswer, FlatState};
use std::fmt;

// The modulus of the sums, the largest prime below 2^32.
const PRIME: u64 = 4294967291;

// How many outputs are written at each end, where not all are.
const SHOWN: usize = 4;

// A float as its bits. All NaNs are one.
#[derive(Clone, Copy)]
struct Pattern(f32);

impl fmt::Display for Pattern {
    fn fmt<W: fmt::Write>(&self, f: &mut fmt::Formatter<W>) -> fmt::Result {
        let pattern = bits::bits_of(self.0);
        write!(f, "{pattern:08x}")
    }
}

// An answer that is being written, and whether all of it could be so far. No value hangs on that.
#[derive(Drop)]
struct Answer<'r, P> {
    rt: &'r P,
    whole: bool,
}

// Writes the line that answers the player's last order.
pub fn tell(rt: &impl Print, player: &Player) -> Result<(), Fault> {
    let mut line = Answer { rt, whole: true };
    let FlatAnswer {
        refusal,
        consumed,
        written,
        state,
    } = player.answer;
    line.text("=");
    line.numbers(&[refusal, consumed, written]);
    line.text(" |");
    line.state(state);
    line.text(" |");
    let outputs = player.output.as_slice();
    let history = sum(player.history.as_slice());
    let coefs = sum(player.coefs.as_slice());
    line.numbers(&[history, coefs, sum(outputs)]);
    line.text(" |");
    line.outputs(&outputs[..outputs.len().min(written as usize)]);
    line.text("\n");
    if line.whole {
        Ok(())
    } else {
        Err(Fault::Unwritable)
    }
}

impl<P: Print> Answer<'_, P> {
    // One piece as it stands.
    fn text(&mut self, piece: &str) {
        self.whole &= print!(self.rt; "{piece}").is_ok();
    }

    // Numbers, a space before each.
    fn numbers(&mut self, numbers: &[u32]) {
        for number in numbers {
            self.whole &= print!(self.rt; " {number}").is_ok();
        }
    }

    // A float's bits, a space before them.
    fn pattern(&mut self, x: f32) {
        self.whole &= print!(self.rt; " {}", Pattern(x)).is_ok();
    }

    // All numbers of a state.
    fn state(&mut self, s: FlatState) {
        self.numbers(&[s.target, s.source, s.num, s.den]);
        self.numbers(&[s.filt_len, s.mem_alloc_size, s.buffer_size]);
        self.numbers(&[s.int_advance, s.frac_advance]);
        self.pattern(s.cutoff);
        self.numbers(&[s.oversample, s.started, s.kernel]);
        self.numbers(&[s.last_sample, s.samp_frac_num, s.magic_samples]);
    }

    // All that was written if that is at most eight, else the first four and the last four.
    fn outputs(&mut self, outputs: &[f32]) {
        let count = outputs.len();
        if count <= 2 * SHOWN {
            return self.samples(outputs);
        }
        self.samples(&outputs[..SHOWN]);
        self.text(" ..");
        self.samples(&outputs[count - SHOWN..]);
    }

    // The bits of samples, and the name of a NaN.
    fn samples(&mut self, samples: &[f32]) {
        for sample in samples {
            if sample.is_nan() {
                self.text(" nan");
            } else {
                self.pattern(*sample);
            }
        }
    }
}

// The sum over a slice's entries.
fn sum(entries: &[f32]) -> u32 {
    entries.iter().fold(0, |sum, entry| summed(sum, *entry))
}

// The sum with one entry more.
fn summed(sum: u32, entry: f32) -> u32 {
    ((u64::from(sum) * 65599 + u64::from(bits::bits_of(entry))) % PRIME) as u32
}
