// Our conversions, sine and coefficients against answers that were made elsewhere.
use crate::rated::coefficient;
use crate::text;

// Whether two numbers are at most this far apart. A NaN is far from everything.
fn within(a: f64, b: f64, bound: f64) -> bool {
    (a - b <= bound) & (b - a <= bound)
}

// The f64 of its bits. Every NaN's pattern reads as one NaN.
fn double_of(pattern: u64) -> f64 {
    if pattern % 0x8000_0000_0000_0000 > 0x7ff0_0000_0000_0000 {
        return 0.0 / 0.0;
    }
    f64::from_bits(pattern)
}

// `XXXXXXXX YYYY`: the bits of an f32, and the sixteen bits of its sample.
pub fn sample_is_right(line: &[u8]) -> bool {
    let pattern = text::small_number(line, 0, 8, 16);
    let ours = sixteen::word_of(sixteen::to_i16(bits::float_of(pattern)));
    (text::number(line, 0, 8, 16) == u64::from(pattern))
        & (text::number(line, 9, 13, 16) == u64::from(ours))
}

// 16 and 16 hex digits: the bits of an angle and of libm's sine. The bound is 2^-40.
pub fn sine_is_right(line: &[u8]) -> bool {
    let ours = sine::sine(double_of(text::number(line, 0, 16, 16)));
    let theirs = double_of(text::number(line, 17, 33, 16));
    within(ours, theirs, 1.0 / 1099511627776.0)
}

// `SSSSSS TTTTTT IIIII XXXXXXXX`: two rates, a place in their table, and the bits of the Rust's
// coefficient there. The bound is 2^-23.
pub fn coefficient_is_right(line: &[u8]) -> bool {
    let source = text::small_number(line, 0, 6, 10);
    let target = text::small_number(line, 7, 13, 10);
    let ours = coefficient(
        source,
        target,
        text::small_number(line, 14, 19, 10) as usize,
    );
    let theirs = bits::float_of(text::small_number(line, 20, 28, 16));
    let bound = 1.0 / 8388608.0;
    within(
        std::num::f32_to_f64_with_nan(ours),
        std::num::f32_to_f64_with_nan(theirs),
        bound,
    )
}
