// Casts of the Rust that Rattle's `as` leaves undefined: f64 to f32, worked out from the bits, and
// the floor of an f32 to usize. Beside them the one that `as` has, u32 to f32 where it is exact.
// From f32 to f64 the kit's `std::num::f32_to_f64_with_nan` serves.
#![tactic(auto)]

ghost use Rattle.std.specs.Prelude.{◌≡◌, ◌*◌, ◌^◌, ◌<◌, ◌≤◌, from_bits, to_bits};
ghost use Rattle.std.specs.Float.{binary32, binary64};
ghost use Rattle.std.specs.Float.Ieee.Nearest.{closest};
ghost use Rattle.casts.specs.Narrowed.{narrowed};
ghost use Rattle.casts.specs.Floor.{floor_of};
ghost use Rattle.math.specs.Numerals.{as_f32};

// The weight of the sign in an f64 pattern, 2^63, and of the exponent's field in either format,
// 2^52 and 2^23.
const SIGN_64: u64 = 0x8000_0000_0000_0000;

const FIELD_64: u64 = 0x10_0000_0000_0000;

const FIELD_32: u64 = 0x80_0000;

// What a normal f32 drops of the digits of an f64, 2^29.
const DROPPED: u64 = 0x2000_0000;

// v / unit to the nearest whole number, a tie to the even one. Twice the remainder, and one more
// where the quotient is odd, is above `unit` exactly where the quotient goes up: one test for all.
fn nearest_quotient(v: u64, unit: u64) -> u64
    requires { (v < 2 ^ 62) × (0 < unit) }
    ensures { result ≡ closest v unit }
{
    let q = v / unit;
    let twice = v % unit * 2 + q % 2;
    if unit < twice { q + 1 } else { q }
}

// The f32 pattern of the f64 pattern `rest`, which is no NaN's and has no sign bit. The field of
// the exponent decides: below 873 the value is under half the smallest f32, from 1151 on it is past
// the largest, below 897 it is subnormal in f32. A carry out of the digits moves the field up by
// itself, to an infinity's too.
fn narrow_pattern(rest: u64) -> u64
    requires { rest ≤ 2047 * 2 ^ 52 }
    ensures { result ≡ to_bits binary32 (narrowed (from_bits binary64 rest)) }
{
    let exponent = rest / FIELD_64;
    if exponent < 873 {
        return 0;
    }
    if 1151 <= exponent {
        return 0x7f80_0000;
    }
    let digits = rest % FIELD_64 + FIELD_64;
    if exponent < 897 {
        return nearest_quotient(digits, 1 << (926 - exponent));
    }
    (exponent - 897) * FIELD_32 + nearest_quotient(digits, DROPPED)
}

// The f32 nearest to x, a tie to the even one, as Rust's `x as f32`. Zeros keep their sign, what is
// too large gives an infinity, and a NaN gives a NaN.
// Not the library's `nearest_f64_to_f32_with_nan`: the edits `narrow_ties_up` and
// `narrow_late_infinity` change steps of this.
pub fn narrow(x: f64) -> f32
    ensures { result ≡ narrowed x }
{
    if x != x {
        return 0.0 / 0.0;
    }
    let bits = f64::to_bits(x);
    let size = f32::from_bits(narrow_pattern(bits % SIGN_64) as u32);
    if bits < SIGN_64 {
        return size;
    }
    -size
}

// The largest whole number that is not above y, as Rust's `y.floor() as usize`: 0 where y is
// negative or a NaN, and `usize::MAX` from 2^64 on. Not the library's `saturating_f32_to_usize`: the edit
// `floor_of_one` changes a step of this.
pub fn floor(y: f32) -> usize
    ensures { result ≡ floor_of y }
{
    if y > 0.0 {
        if y < 18446744073709551616.0 {
            return std::num::truncating_f32_to_u64(y) as usize;
        }
        return usize::MAX;
    }
    0
}

// n as an f32. Up to 2^24 every whole number is one, so nothing is rounded. The bound stays a clause, here
// and where `filter` calls it: docs/CLAIMS.md names `casts::small` of a plain u32.
pub fn small(n: u32) -> f32
    requires { n ≤ 2 ^ 24 }
    ensures { result ≡ as_f32 n }
{
    n as f32
}
