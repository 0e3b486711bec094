// Ratios of whole numbers: the greatest common divisor, lowest terms, and a product divided
// exactly. Everything is u64. Nothing here knows of rates or sound, and nothing promises an answer
// for a denominator of 0.
#![tactic(auto)]

ghost use Rattle.std.specs.Prelude.{◌≡◌, ◌*◌, ◌/◌, ◌^◌, ◌<◌};
ghost use Rattle.ratio.specs.Gcd.{gcd_of};
ghost use Rattle.ratio.specs.Lowest.{lowest};

// The ratio num/den.
#[derive(Clone, Copy)]
pub struct Ratio {
    pub num: u64,
    pub den: u64,
}

// The greatest common divisor. With 0 it is the other number, and 0 of two zeros.
pub fn gcd(mut a: u64, mut b: u64) -> u64
    ensures { result ≡ gcd_of a b }
{
    while a != 0 {
        let rest = b % a;
        b = a;
        a = rest;
    }
    b
}

// num over den in lowest terms; 0 over anything is 0/1.
pub fn simplify(num: u64, den: u64) -> Ratio
    requires { 0 < den }
    ensures { result ≡ lowest num den }
{
    let factor = gcd(num, den);
    Ratio {
        num: num / factor,
        den: den / factor,
    }
}

// value * mul / div, rounded down: the exact quotient wherever the product fits.
pub fn _muldiv(value: u64, mul: u64, div: u64) -> u64
    requires { (0 < div) × (value * mul < 2 ^ 64) }
    ensures { result ≡ value * mul / div }
{
    value * mul / div
}
