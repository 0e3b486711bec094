// One coefficient: the sinc, cut off by the window. That its values lie near those of another
// build's sine is not said here: each is the definition's, bit for bit.
#![tactic(auto)]

ghost use Rattle.std.specs.Prelude.{◌≡◌, ◌<◌};
ghost use Rattle.window.specs.Window.{NotAboveOne};
ghost use Rattle.sinc.specs.Sinc.{MirrorFits, place_at, windowed_sinc, sinc_at};

use std::f64::consts::PI;
use window::compute_func;

// Where the window is asked for x.
fn place_at(x: f32, n: u32) -> f32
    ensures { result ≡ place_at x n }
{
    casts::narrow(math::abs(2.0 * std::num::f32_to_f64_with_nan(x) / n as f64))
}

// The coefficient at x where neither test of `sinc` decides it. With cutoff 0.0 the angle is 0.0,
// and 0.0 / 0.0 gives a NaN.
fn windowed_sinc(cutoff: f32, x: f32, n: u32) -> f32
    requires { NotAboveOne (place_at x n) }
    ensures { result ≡ windowed_sinc cutoff x n }
{
    let angle = PI * std::num::f32_to_f64_with_nan(x * cutoff);
    let first_factor = std::num::f32_to_f64_with_nan(cutoff) * sine::sine(angle) / angle;
    let second_factor = compute_func(place_at(x, n));
    casts::narrow(first_factor * second_factor)
}

// Cutoff, x and n stay apart, here and below: docs/DECISIONS.md names both with what they ask.
// The coefficient at x for a filter of length n, whatever x and cutoff are. A NaN for x passes both
// tests, and gives a NaN.
pub fn sinc(cutoff: f32, x: f32, n: u32) -> f32
    requires { 0 < n }
    ensures { result ≡ sinc_at cutoff x n }
{
    let x_abs = math::abs(std::num::f32_to_f64_with_nan(x));
    if x_abs < 0.000001 {
        return cutoff;
    }
    if x_abs > 0.5 * n as f64 {
        return 0.0;
    }
    windowed_sinc(cutoff, x, n)
}

// The coefficient at x, where that at y is known. The sinc is even, so where x is -y, bit for bit,
// it is the known one, and nothing is worked out.
pub fn sinc_by_mirror(cutoff: f32, x: f32, n: u32, y: f32, known: f32) -> f32
    requires { MirrorFits cutoff x n y known }
    ensures { result ≡ sinc_at cutoff x n }
{
    if f32::to_bits(x) == f32::to_bits(-y) {
        return known;
    }
    sinc(cutoff, x, n)
}
