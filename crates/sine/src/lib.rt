// The sine of document 01, for every f64: a reduction to a quarter turn, then ten terms by Horner's
// rule, each operation rounded once and in a fixed order. The reduction works with the f64 nearest
// pi, so far from 0 it drifts away from the sine of mathematics: nothing is promised of that.
#![tactic(auto)]

ghost use Rattle.std.specs.Prelude.{◌≡◌};
ghost use Rattle.std.specs.Float.{binary64};
ghost use Rattle.std.specs.Float.Ieee.{rem};
ghost use Rattle.math.specs.Numerals.{as_f64};
ghost use Rattle.math.specs.Operators.{◌*ᵈ◌};
ghost use Rattle.math.specs.Sign.{magnitude};
ghost use Rattle.sine.specs.Halving.{Halves};
ghost use Rattle.sine.specs.Sine.{C, reduced, series, sine_at};

use math::{abs, times_sign};
use std::f64::consts::PI;

// What the reduction leaves of an angle: r, from 0 to a quarter turn, and whether the sign of its
// sine is flipped. The flip is no Option: r is there either way.
#[derive(Clone, Copy)]
struct Reduced {
    r: f64,
    flip: bool,
}

// The remainder of x by y, by halves: what twice y leaves of x, less y if that is not below it. Each
// difference is exact. `k` is how often y can still be doubled; doubled once more it is above x.
// (`%` is not used, since it becomes the C library's `fmod`, in a version that many systems lack.)
fn remainder(x: f64, y: f64, k: u32) -> f64
    requires { Halves x y k }
    ensures { result ≡ rem binary64 x y }
{
    if x < y {
        return x;
    }
    if k == 0 {
        return x - y;
    }
    let r = remainder(x, y + y, k - 1);
    if r < y { r } else { r - y }
}

// The remainder of a's magnitude by a whole turn; a NaN at an infinity or a NaN. A turn doubled 1021
// times is an f64 still, and doubled once more it is above all of them.
fn turned(a: f64) -> f64
    ensures { result ≡ rem binary64 (magnitude a) (as_f64 2 *ᵈ C) }
{
    let v = abs(a);
    if v < f64::INFINITY {
        remainder(v, 2.0 * PI, 1021)
    } else {
        v - v
    }
}

// At an infinity or a NaN r is a NaN, and nothing is flipped.
fn reduce(a: f64) -> Reduced
    ensures { result ≡ reduced a }
{
    let turn = turned(a);
    let flip = turn >= PI;
    let half = if flip { turn - PI } else { turn };
    let r = if half > PI / 2.0 { PI - half } else { half };
    Reduced { r, flip }
}

// The ten terms at r: the coefficients are divided out here, so that their rounding is seen.
fn ten_terms(r: f64) -> f64
    ensures { result ≡ series r }
{
    let s = r * r;
    let p = -1.0 / 121645100408832000.0;
    let p = p * s + 1.0 / 355687428096000.0;
    let p = p * s + -1.0 / 1307674368000.0;
    let p = p * s + 1.0 / 6227020800.0;
    let p = p * s + -1.0 / 39916800.0;
    let p = p * s + 1.0 / 362880.0;
    let p = p * s + -1.0 / 5040.0;
    let p = p * s + 1.0 / 120.0;
    let p = p * s + -1.0 / 6.0;
    let p = p * s + 1.0 / 1.0;
    p * r
}

// The sine of a: -0.0 at -0.0, and a NaN at an infinity or a NaN. A flip is a negation, never a
// difference from 0.0: at PI the answer is -0.0.
pub fn sine(a: f64) -> f64
    ensures { result ≡ sine_at a }
{
    let t = reduce(a);
    let v = ten_terms(t.r);
    times_sign(a, if t.flip { -v } else { v })
}
