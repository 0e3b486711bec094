// An f32 and its 32 bits. All NaNs are one: a NaN's pattern reads as that one, and it goes out as
// 7fc00000.
#![tactic(auto)]

ghost use Rattle.std.specs.Prelude.{◌≡◌};
ghost use Rattle.std.specs.Float.Ieee as Ieee;
ghost use Rattle.std.specs.Float.{binary32};

use std::num;

// The float of a pattern. The library's, with a contract that names no more than the one NaN.
pub fn float_of(pattern: u32) -> f32
    ensures { result ≡ Ieee.of_bits binary32 pattern }
{
    num::f32_from_bits_with_nan(pattern)
}

// The pattern of a float. Not the library's `f32_to_bits_with_nan`: the edit `another_nan_goes_out`
// changes a step of this.
pub fn bits_of(x: f32) -> u32
    ensures { result ≡ Ieee.to_bits binary32 x }
{
    if x != x {
        return 0x7fc0_0000;
    }
    f32::to_bits(x)
}
