// The samples that a line names, segment by segment.
use crate::Fault;
use crate::script::Script;
use arrayvec::ArrayVec;
use std::io::Read;

// The most samples that a call is given, and the most that it answers.
pub const MOST_SAMPLES: usize = 16384;

// At most so many entries are made before they are put behind the others: one by one they cost half as much
// again and more.
pub const BLOCK: usize = 256;

// What a line names, in its order.
pub type Samples = ArrayVec<f32, MOST_SAMPLES>;

// The sixteen values that break things.
const SPECIALS: [u32; 16] = [
    0x7fc0_0000,
    0x7f80_0000,
    0xff80_0000,
    0x0000_0001,
    0x8000_0001,
    0x007f_ffff,
    0x0080_0000,
    0x8000_0000,
    0x7f7f_ffff,
    0xff7f_ffff,
    0x3f80_0000,
    0xbf80_0000,
    0x3380_0000,
    0x0da2_4260,
    0x4b80_0000,
    0x0000_0000,
];

// What becomes of a segment's seed: each sample is the seed's float, or is drawn from the numbers that follow
// the seed.
#[derive(Clone, Copy)]
enum Kind {
    Constant,
    Denormal,
    Random,
    Special,
}

// Reads one segment and on to the next word, and puts its samples behind those that are there. Where there is
// no room for all of them the line cannot be played.
pub fn read<R: Read>(script: &mut Script<R>, samples: &mut Samples) -> Result<(), Fault> {
    let letter = script.take()?;
    script.expect_byte(b':')?;
    match letter {
        b'b' => listed(script, samples),
        b'c' => made(Kind::Constant, script, samples),
        b'd' => made(Kind::Denormal, script, samples),
        b'r' => made(Kind::Random, script, samples),
        b's' => made(Kind::Special, script, samples),
        _ => Err(Fault::BadLine),
    }
}

// Patterns with commas between.
fn listed<R: Read>(script: &mut Script<R>, samples: &mut Samples) -> Result<(), Fault> {
    push(samples, bits::float_of(script.entry()?))?;
    for _ in 0..u64::MAX {
        if script.peek() != Some(b',') {
            break;
        }
        script.step()?;
        push(samples, bits::float_of(script.entry()?))?;
    }
    script.next_word()
}

// A segment of the form SEED*COUNT. A constant's seed is its pattern.
fn made<R: Read>(kind: Kind, script: &mut Script<R>, samples: &mut Samples) -> Result<(), Fault> {
    let mut x = match kind {
        Kind::Constant => script.pattern()?,
        _ => script.decimal()?,
    };
    script.expect_byte(b'*')?;
    let count = script.argument()? as usize;
    let mut block = [0.0; BLOCK];
    for done in (0..count).step_by(BLOCK) {
        let part = &mut block[..(count - done).min(BLOCK)];
        x = kind.fill(x, part);
        extend(samples, part)?;
    }
    Ok(())
}

// One entry more. Where there is no room for it the line cannot be played.
pub fn push<const N: usize>(entries: &mut ArrayVec<f32, N>, entry: f32) -> Result<(), Fault> {
    entries.try_push(entry).map_err(|_| Fault::BadLine)
}

// As many entries more. Where there is no room for all of them the line cannot be played.
pub fn extend<const N: usize>(entries: &mut ArrayVec<f32, N>, part: &[f32]) -> Result<(), Fault> {
    entries
        .try_extend_from_slice(part)
        .map_err(|_| Fault::BadLine)
}

impl Kind {
    // The entries take what the number x leads to: its own float, over and over, where it is a constant, else the
    // samples of the numbers that follow it. Answers the last number. The kind is asked once, outside the
    // loops; the compiler would ask for each sample.
    fn fill(self, x: u32, entries: &mut [f32]) -> u32 {
        match self {
            Kind::Constant => {
                entries.fill(bits::float_of(x));
                x
            }
            Kind::Denormal => draw(x, entries, denormal),
            Kind::Random => draw(x, entries, random),
            Kind::Special => draw(x, entries, special),
        }
    }
}

// The entries take the samples of the numbers that follow x. Answers the last of these.
fn draw<F: Fn(u32) -> f32>(x: u32, entries: &mut [f32], sample: F) -> u32
    requires { F.IsAlwaysCallable sample }
{
    let mut last = x;
    for entry in entries {
        last = last.wrapping_mul(1664525).wrapping_add(1013904223);
        *entry = sample(last);
    }
    last
}

// A denormal sample, of either sign.
fn denormal(x: u32) -> f32 {
    bits::float_of((x << 31) | (x >> 9))
}

// One of the special ones; seven in eight are random.
fn special(x: u32) -> f32 {
    if x < 1 << 29 {
        bits::float_of(SPECIALS[(x >> 25) as usize % 16])
    } else {
        random(x)
    }
}

// From -1.0 up to 1.0, in steps of 2^-23: each operation is exact, the cast too, since 24 bits are left.
fn random(x: u32) -> f32 {
    let middle = 8388608.0;
    ((x >> 8) as f32 - middle) / middle
}
