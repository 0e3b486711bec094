// Between signed 16-bit samples and f32, where 1.0 is 32768 steps of a sample; and a sample's sixteen
// bits.
//
// No public function has a `requires`: each answers for every argument, NaN and the infinities too.
#![tactic(auto)]

ghost use Rattle.std.specs.Prelude.{◌≡◌, ◌≤◌, T, pos, neg_ℤ};
ghost use Rattle.std.specs.Float.Ieee.{le};
ghost use Rattle.math.specs.Numerals.{nought};
ghost use Rattle.sixteen.specs.Sixteen.{sample_of, word_of, from_i16, to_i16, step_count};

// The sample whose sixteen bits these are, in two's complement. This and the next are the library's,
// under the names that docs/CLAIMS.md has.
pub fn sample_of(word: u16) -> i16
    ensures { result ≡ sample_of word }
{
    word.cast_signed()
}

// The sixteen bits of a sample.
pub fn word_of(sample: i16) -> u16
    ensures { result ≡ word_of sample }
{
    sample.cast_unsigned()
}

// How many steps an x that is not negative is from 0.
//
// x times 65536 is exact below 1.0, for a subnormal x too, since its digits only move up. Its whole
// part counts half steps, so one more and halved is the nearest whole step. Adding 0.5 to x times
// 32768 would round, and give 1 for the largest f32 below a half step.
fn nearest_steps(x: f32) -> u32
    requires { T (le nought x) }
    ensures { result ≡ step_count x }
{
    if x >= 1.0 {
        return 32768;
    }
    let halves = std::num::truncating_f32_to_u64(x * 65536.0);
    ((halves + 1) / 2) as u32
}

// How many steps x is from 0, to the nearest whole number, a half up, and at most 32768. NaN gives 0.
pub fn step_count(x: f32) -> u32
    ensures { result ≡ step_count x }
{
    if x >= 0.0 {
        return nearest_steps(x);
    }
    if x < 0.0 {
        return nearest_steps(-x);
    }
    0
}

// -n. The way goes by i32 because an i16 does not hold 32768.
fn negated(n: u32) -> i16
    requires { n ≤ 32768 }
    ensures { result ≡ neg_ℤ (pos n) }
{
    (0 - (n as i32)) as i16
}

// x times 32768, to the nearest whole number, halves away from zero, clamped to -32768..32767. NaN
// gives 0.
pub fn to_i16(x: f32) -> i16
    ensures { result ≡ to_i16 x }
{
    let steps = step_count(x);
    if x < 0.0 {
        return negated(steps);
    }
    steps.min(32767) as i16
}

// A sample divided by 32768.
pub fn from_i16(sample: i16) -> f32
    ensures { result ≡ from_i16 sample }
{
    (sample as f32) / 32768.0
}
