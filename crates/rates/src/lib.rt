// What a source rate, a target rate and a quality row give: the ratio in lowest terms, the filter's
// length, oversample and cutoff, the kernel and how many coefficients it has.
//
// Numbers only: no coefficient is worked out here and no history is touched. Nothing is promised
// for a row that is not sane or a rate out of limits.
#![tactic(auto)]

mod terms;

ghost use Rattle.std.specs.Prelude.{◌≡◌, ◌≤◌};
ghost use Rattle.sizes.specs.Sizes.{InLimits, RatioInLimits};
ghost use Rattle.quality.specs.Quality.{Sane};
ghost use Rattle.rates.specs.Setting.{kernel_of, coefficients_of, setting_at, setting_of};

use quality::QualityMapping;
use ratio::simplify;
use terms::Terms;

// What makes an output; `Unset` before a source rate was set. No Option: document 01 and C number the
// three alike (`kernel_number`).
#[derive(Clone, Copy, PartialEq, Eq)]
pub enum Kernel {
    Unset,
    Direct,
    Interpolated,
}

// Everything that two rates and a quality row give; `coefs` is how many coefficients there are.
#[derive(Clone, Copy)]
pub struct Setting {
    pub num: u32,
    pub den: u32,
    pub int_advance: u32,
    pub frac_advance: u32,
    pub filt_len: u32,
    pub oversample: u32,
    pub coefs: u32,
    pub cutoff: f32,
    pub kernel: Kernel,
}

impl Setting {
    // What `row` gives for a source and a target rate.
    pub fn new(row: QualityMapping, source: u32, target: u32) -> Self
        requires { Sane row × InLimits source × InLimits target }
        ensures { result ≡ setting_of row source target }
    {
        let ratio = simplify(source as u64, target as u64);
        Setting::at_ratio(row, ratio.num as u32, ratio.den as u32)
    }

    // The same for a ratio in lowest terms.
    fn at_ratio(row: QualityMapping, num: u32, den: u32) -> Self
        requires { Sane row × RatioInLimits num den }
        ensures { result ≡ setting_at row num den }
    {
        let terms = Terms { row, num, den };
        let n = terms.filter_length();
        let oversample = terms.oversampling();
        let kernel = kernel_for(n, oversample, den);
        Self {
            num,
            den,
            int_advance: num / den,
            frac_advance: num % den,
            filt_len: n,
            oversample,
            coefs: coefficients(kernel, n, oversample, den),
            cutoff: terms.cutoff(),
            kernel,
        }
    }
}

// The second test, on the bytes of a direct table, is the Rust's: within the limits it always
// passes.
fn kernel_for(n: u32, oversample: u32, den: u32) -> Kernel
    requires { (n ≤ 7680) × (oversample ≤ 16) × (1 ≤ den) × (den ≤ 192000) }
    ensures { result ≡ kernel_of n oversample den }
{
    if n * den <= n * oversample + 8 && n <= 536870911 / den {
        return Kernel::Direct;
    }
    Kernel::Interpolated
}

// How many coefficients a kernel has; without one there are none.
// Three bare bounds and no struct: `ResamplerState::setting` promises its answer for just these.
pub fn coefficients(kernel: Kernel, n: u32, oversample: u32, den: u32) -> u32
    requires { (n ≤ 7680) × (oversample ≤ 16) × (den ≤ 192000) }
    ensures { result ≡ coefficients_of kernel n oversample den }
{
    match kernel {
        Kernel::Unset => 0,
        Kernel::Direct => n * den,
        Kernel::Interpolated => n * oversample + 8,
    }
}
