// The two kernels: one output sample from the n samples of a window and the table of coefficients.
//
// Every product and every sum is rounded once, in the Rust's order, and none is skipped: a
// coefficient of 0 times an infinity is a NaN. Nothing is said of how near an output comes to the
// signal. Each function asks that what it reads lies within the slices; nothing is tested at run time.
#![tactic(auto)]

ghost use Rattle.std.specs.Prelude.{◌≡◌, ◌+◌, ◌<◌, ◌≤◌, length};
ghost use Rattle.kernel.specs.Sums.{direct_sum};
ghost use Rattle.kernel.specs.Cubic.{third_weight, cubic_coef};
ghost use Rattle.kernel.specs.Interpolated.{TapsWithin, spread, four_sums, folded, interpolated};
ghost use Rattle.kernel.specs.Step.{step_of, Reaches};

// One output of a direct row: coefficient times sample, summed from 0.0. With n = 0 it is 0.0.
// n stands beside the slices: the contract lets both be longer.
pub fn direct_step(window: &[f32], coefs: &[f32], n: usize) -> f32
    requires { (n ≤ length window.now) × (n ≤ length coefs.now) }
    ensures { result ≡ direct_sum n coefs.now window.now }
{
    let mut sum: f32 = 0.0;
    for j in 0..n {
        sum += coefs[j] * window[j];
    }
    sum
}

// What the other three weights leave of 1, worked out in f64 and rounded to f32 once.
fn third_weight(a: f32, b: f32, d: f32) -> f32
    ensures { result ≡ third_weight a b d }
{
    let x = std::num::f32_to_f64_with_nan(a);
    let y = std::num::f32_to_f64_with_nan(b);
    let z = std::num::f32_to_f64_with_nan(d);
    casts::narrow(1.0 - x - y - z)
}

// The weights of the four sums at a remainder. A NaN gives four NaNs.
pub fn cubic_coef(frac: f32) -> [f32; 4]
    ensures { result ≡ cubic_coef frac }
{
    let a = -0.166_67 * frac + 0.166_67 * frac * frac * frac;
    let b = frac + 0.5 * frac * frac - 0.5 * frac * frac * frac;
    let d = -0.333_33 * frac + 0.5 * frac * frac - 0.166_67 * frac * frac * frac;
    let c = third_weight(a, b, d);
    [a, b, c, d]
}

// The four sums, each times its weight, added from 0.0.
pub fn fold_sums(frac: f32, accum: [f32; 4]) -> f32
    ensures { result ≡ folded (cubic_coef frac) accum }
{
    let interp = cubic_coef(frac);
    0.0 + interp[0] * accum[0] + interp[1] * accum[1] + interp[2] * accum[2] + interp[3] * accum[3]
}

// One sample's four products, each added to its sum. The sums go in and out by value, as an array.
pub fn spread(accum: [f32; 4], curr_in: f32, coefs: &[f32], idx: usize) -> [f32; 4]
    requires { idx + 3 < length coefs.now }
    ensures { result ≡ spread accum curr_in coefs.now idx }
{
    [
        accum[0] + curr_in * coefs[idx],
        accum[1] + curr_in * coefs[idx + 1],
        accum[2] + curr_in * coefs[idx + 2],
        accum[3] + curr_in * coefs[idx + 3],
    ]
}

// The four sums, from those of the first `from` samples on to those of the first `to`. Its parameters
// stay as they are: docs/DECISIONS.md names it with what it asks.
pub fn sums_on(
    sums: [f32; 4],
    window: &[f32],
    coefs: &[f32],
    oversample: usize,
    offset: usize,
    from: usize,
    to: usize,
) -> [f32; 4]
    requires from_le_to { (from ≤ to) × (to ≤ length window.now) }
    requires taps_within { TapsWithin to oversample offset (length coefs.now) }
    requires sums_value { sums ≡ four_sums oversample offset from coefs.now window.now }
    ensures { result ≡ four_sums oversample offset to coefs.now window.now }
{
    let mut accum = sums;
    // The Rust works each sample's index out anew; here it goes up, which takes up to a sixth less time where
    // outputs are made one by one.
    let mut idx = 2 + (from + 1) * oversample - offset;
    for j in from..to {
        let next = spread(accum, window[j], coefs, idx);
        accum = next;
        idx += oversample;
    }
    accum
}

// One output at an offset with a remainder. The parameters of this and of `step` stay apart:
// docs/DECISIONS.md and docs/CLAIMS.md name both, with what they ask.
pub fn interpolate_step(
    window: &[f32],
    coefs: &[f32],
    n: usize,
    oversample: usize,
    offset: usize,
    frac: f32,
) -> f32
    requires n_in_bounds { n ≤ length window.now }
    requires taps_within { TapsWithin n oversample offset (length coefs.now) }
    ensures { result ≡ interpolated oversample offset frac n coefs.now window.now }
{
    let accum = sums_on([0.0; 4], window, coefs, oversample, offset, 0, n);
    fold_sums(frac, accum)
}

// The phase of an output: a row of the direct table, or an offset with a remainder.
#[derive(Clone, Copy)]
pub enum Phase {
    Direct(usize),
    Interpolated(usize, f32),
}

// One output. The window is the history from the position on; what it holds past n samples is not
// read.
pub fn step(phase: Phase, window: &[f32], coefs: &[f32], n: usize, oversample: usize) -> f32
    requires n_in_bounds { n ≤ length window.now }
    requires reaches { Reaches phase n oversample (length coefs.now) }
    ensures { result ≡ step_of phase n oversample coefs.now window.now }
{
    match phase {
        Phase::Direct(row) => {
            let start = row * n;
            direct_step(window, &coefs[start..], n)
        }
        Phase::Interpolated(offset, frac) => {
            interpolate_step(window, coefs, n, oversample, offset, frac)
        }
    }
}
