// The resampler's state: fresh, all 0, and whether its numbers belong together.
//
// A state is a plain struct, so anybody may make one up: `belongs` takes any numbers at all and
// never wraps on the way. Nothing here changes a state, and no sample or coefficient is looked at.
#![tactic(auto)]

ghost use Rattle.std.specs.Prelude.{◌≡◌, ◌+◌, ◌*◌, ◌≤◌};
ghost use Rattle.sizes.specs.Sizes.{history_needed};
ghost use Rattle.quality.specs.Quality.{Sane};
ghost use Rattle.state.specs.State.{fresh_state, zero_state, setting_in, moved_to};
ghost use Rattle.state.specs.Belongs.{same_bits, kernel_number, all_hold, setting_tests, place_tests, fresh_tests, rated_tests, belongs_together};

use quality::QualityMapping;
use rates::{Kernel, Setting};
use sizes::{BUFFER_SIZE, MAX_HISTORY};

// Everything the resampler keeps between calls but the samples and the coefficients, which are
// lent. `source` is 0 before a source rate was set.
#[derive(Clone, Copy)]
pub struct ResamplerState {
    // rates in Hz; no Option for the source, since document 01 and C have 0 for none
    pub target: u32,
    pub source: u32,
    // source over target in lowest terms
    pub num: u32,
    pub den: u32,
    // n
    pub filt_len: u32,
    // alloc: how many entries of the lent history are used
    pub mem_alloc_size: u32,
    pub buffer_size: u32,
    // num/den, whole and rest
    pub int_advance: u32,
    pub frac_advance: u32,
    pub cutoff: f32,
    pub oversample: u32,
    // 1 once a round ran, else 0; no bool, since C may give any number, and `belongs` judges it
    pub started: u32,
    pub kernel: Kernel,
    // position
    pub last_sample: u32,
    // phase
    pub samp_frac_num: u32,
    // magic
    pub magic_samples: u32,
}

impl ResamplerState {
    // A state for this target rate, in limits or not, before any source rate was set.
    pub fn fresh(target: u32) -> Self
        ensures { result ≡ fresh_state target }
    {
        Self {
            target,
            den: 1,
            buffer_size: BUFFER_SIZE,
            cutoff: 1.0,
            ..ResamplerState::zero()
        }
    }

    // What a refused new state is: it does not belong together, whatever the row.
    pub fn zero() -> Self
        ensures { result ≡ zero_state }
    {
        Self {
            target: 0,
            source: 0,
            num: 0,
            den: 0,
            filt_len: 0,
            mem_alloc_size: 0,
            buffer_size: 0,
            int_advance: 0,
            frac_advance: 0,
            cutoff: 0.0,
            oversample: 0,
            started: 0,
            kernel: Kernel::Unset,
            last_sample: 0,
            samp_frac_num: 0,
            magic_samples: 0,
        }
    }

    // The state's numbers as a setting. How many coefficients there are is not kept in the state: the
    // kernel says it.
    pub fn setting(self) -> Setting
        requires { (self.filt_len ≤ 7680) × (self.oversample ≤ 16) × (self.den ≤ 192000) }
        ensures { result ≡ setting_in self }
    {
        Setting {
            num: self.num,
            den: self.den,
            int_advance: self.int_advance,
            frac_advance: self.frac_advance,
            filt_len: self.filt_len,
            oversample: self.oversample,
            coefs: rates::coefficients(self.kernel, self.filt_len, self.oversample, self.den),
            cutoff: self.cutoff,
            kernel: self.kernel,
        }
    }

    // The state with other numbers in all that moves from call to call; what the rates gave stays.
    pub fn moved_to(self, started: u32, position: u32, phase: u32, magic: u32) -> Self
        ensures { result ≡ moved_to self started position phase magic }
    {
        Self {
            started,
            last_sample: position,
            samp_frac_num: phase,
            magic_samples: magic,
            ..self
        }
    }

    // Whether the state's numbers belong together, for any numbers at all: a source of 0 decides
    // that it has to be as fresh.
    pub fn belongs(self, row: QualityMapping) -> bool
        requires { Sane row }
        ensures { result ≡ belongs_together row self }
    {
        if self.source == 0 {
            return self.belongs_fresh();
        }
        self.belongs_rated(row)
    }

    // Field by field, here and below: a derived `==` would take 0.0 and -0.0 for one cutoff.
    fn belongs_fresh(self) -> bool
        ensures { result ≡ all_hold (fresh_tests self) }
    {
        let fresh = ResamplerState::fresh(self.target);
        sizes::in_limits(self.target)
            & (self.buffer_size == fresh.buffer_size)
            & self.has_setting(fresh.setting())
            & (self.mem_alloc_size == fresh.mem_alloc_size)
            & (self.samp_frac_num == fresh.samp_frac_num)
            & (self.last_sample == fresh.last_sample)
            & (self.magic_samples == fresh.magic_samples)
            & (self.started == fresh.started)
    }

    // Out of limits the rates give no setting to compare with.
    fn belongs_rated(self, row: QualityMapping) -> bool
        requires { Sane row }
        ensures { result ≡ all_hold (rated_tests row self) }
    {
        let source = self.source;
        let target = self.target;
        if sizes::in_limits(source) & sizes::in_limits(target) {
            let given = Setting::new(row, source, target);
            return (self.buffer_size == BUFFER_SIZE) & self.has_setting(given) & self.in_place();
        }
        false
    }

    // The number of coefficients is left out: it follows from the others.
    fn has_setting(self, given: Setting) -> bool
        ensures { result ≡ all_hold (setting_tests self given) }
    {
        (self.num == given.num)
            & (self.den == given.den)
            & (self.int_advance == given.int_advance)
            & (self.frac_advance == given.frac_advance)
            & same_bits(self.cutoff, given.cutoff)
            & (self.filt_len == given.filt_len)
            & (self.oversample == given.oversample)
            & (self.kernel == given.kernel)
    }

    // All that moves from call to call.
    fn in_place(self) -> bool
        ensures { result ≡ all_hold (place_tests self) }
    {
        let n = self.filt_len;
        let magic = self.magic_samples;
        let alloc = self.mem_alloc_size as u64;
        (history_with(n, 0) <= alloc)
            & (self.mem_alloc_size <= MAX_HISTORY)
            & (self.samp_frac_num < self.den)
            & (self.last_sample <= n / 2)
            & (history_with(n, magic) <= alloc)
            & (self.started <= 1)
            & ((self.started != 0) | (magic == 0))
    }
}

// A NaN is the same as nothing, not even as itself; 0.0 and -0.0 differ.
fn same_bits(a: f32, b: f32) -> bool
    ensures { result ≡ same_bits a b }
{
    a == b && a.to_bits() == b.to_bits()
}

// The number of a kernel, which stands for it in C.
pub fn kernel_number(kernel: Kernel) -> u32
    ensures { result ≡ kernel_number kernel }
{
    match kernel {
        Kernel::Unset => 0,
        Kernel::Direct => 1,
        Kernel::Interpolated => 2,
    }
}

// How long a history a filter needs with this many magic samples, each of which counts twice. In
// 64 bits, where no two numbers of a state can wrap it; at a length of 0 nothing is taken off.
fn history_with(n: u32, magic: u32) -> u64
    ensures { result ≡ history_needed (n + 2 * magic) }
{
    let length = n as u64 + 2 * magic as u64;
    length.saturating_sub(1) + BUFFER_SIZE as u64
}
