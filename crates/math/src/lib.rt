// Signs, absolute values and powers of floats. The definitions here, of numerals and operators, are
// what every formula of the other crates is written in.
//
// Every function answers for every argument, NaN and the infinities included.
#![tactic(auto)]

ghost use Rattle.std.specs.Prelude.{◌≡◌};
ghost use Rattle.math.specs.Powers.{square, cube};
ghost use Rattle.math.specs.Sign.{magnitude, times_sign};

// v times the sign of a: -v where a is negative or -0.0. A NaN has no sign, and leaves v as it is.
// `a < 0.0` would not do: it does not hold at -0.0.
pub fn times_sign(a: f64, v: f64) -> f64
    ensures { result ≡ times_sign a v }
{
    if a.is_nan() || a.is_sign_positive() {
        return v;
    }
    -v
}

// |a|: 0.0 at both zeros, and a NaN at a NaN. The library's, under the name that docs/CLAIMS.md has.
pub fn abs(a: f64) -> f64
    ensures { result ≡ magnitude a }
{
    a.abs()
}

// The Rust's `x.powi(2)`.
pub fn powi2(x: f64) -> f64
    ensures { result ≡ square x }
{
    x * x
}

// The Rust's `x.powi(3)`: x * x is rounded, and then x times that.
pub fn powi3(x: f64) -> f64
    ensures { result ≡ cube x }
{
    x * (x * x)
}
