// A change of the source rate to another, once it is accepted: the state, the history and the table
// of coefficients.
//
// It refuses nothing and tests nothing: it asks that the change was accepted, from which all that its
// parts ask for follows.
#![tactic(auto)]

ghost use Rattle.std.specs.Prelude.{◌≡◌, ◌≤◌, ◌<◌, length};
ghost use Rattle.quality.specs.Quality.{Sane};
ghost use Rattle.rates.specs.Setting.{setting_of};
ghost use Rattle.sizes.specs.Sizes.{history_needed, max_history};
ghost use Rattle.judge.specs.Verdicts.{accept, rate_verdict};
ghost use Rattle.update.specs.Updated.{phase_after, change_of, with_setting, updated_state, updated_history, updated_coefficients};

use quality::QualityMapping;
use rates::Setting;
use ratio::_muldiv;
use reshape::Change;
use state::ResamplerState;

// The old phase over the new denominator. The product is worked out in 64 bits, so the quotient is
// exact where the Rust's 32 bits make it panic.
fn phase_after(phase: u32, den: u32, old_den: u32) -> u32
    requires { (0 < old_den) × (0 < den) }
    ensures { result ≡ phase_after phase den old_den }
{
    let scaled = _muldiv(phase as u64, den as u64, old_den as u64);
    let last = den - 1;
    scaled.min(last as u64) as u32
}

// The change as the history sees it: alloc grows where the new filter needs it, and never shrinks.
fn change(state: ResamplerState, setting: Setting) -> Change
    requires { (1 ≤ setting.filt_len) × (history_needed setting.filt_len ≤ max_history) }
    ensures { result ≡ change_of state setting }
{
    let alloc = judge::history_after(state.mem_alloc_size, setting.filt_len);
    Change {
        started: state.started as usize,
        old_alloc_size: state.mem_alloc_size as usize,
        mem_alloc_size: alloc as usize,
        old_length: state.filt_len as usize,
        filt_len: setting.filt_len as usize,
        magic_samples: state.magic_samples as usize,
    }
}

// The state with a setting's numbers, which it holds field by field, as C does. The buffer's size and
// whether a round ever ran stay.
fn with_setting(
    state: ResamplerState,
    source: u32,
    setting: Setting,
    alloc: u32,
    magic: u32,
) -> ResamplerState
    requires { (0 < state.den) × (0 < setting.den) }
    ensures { result ≡ with_setting state source setting alloc magic }
{
    ResamplerState {
        source,
        num: setting.num,
        den: setting.den,
        filt_len: setting.filt_len,
        mem_alloc_size: alloc,
        int_advance: setting.int_advance,
        frac_advance: setting.frac_advance,
        cutoff: setting.cutoff,
        oversample: setting.oversample,
        kernel: setting.kernel,
        last_sample: setting.filt_len / 2,
        samp_frac_num: phase_after(state.samp_frac_num, setting.den, state.den),
        magic_samples: magic,
        ..state
    }
}

// Sets the source rate. What lies past alloc and past the table in the lent slices stays. That the row
// is sane stays a clause, as in `judge`, and the slices stay apart, as in `resampler`.
pub fn update_filter(
    row: QualityMapping,
    state: ResamplerState,
    source: u32,
    mem: &mut [f32],
    coefs: &mut [f32],
) -> ResamplerState
    requires { Sane row × (rate_verdict row state source (length mem.old) (length coefs.old) ≡ accept) × (state.source ≡ source → ⊥) }
    ensures value { result ≡ updated_state state source (setting_of row source state.target) }
    ensures mem_after { mem.new ≡ updated_history state (setting_of row source state.target) mem.old }
    ensures coefs_after { coefs.new ≡ updated_coefficients (setting_of row source state.target) coefs.old }
{
    let setting = Setting::new(row, source, state.target);
    let change = change(state, setting);
    let magic = reshape::reshape_history(mem, change);
    filter::fill_table(coefs, setting);
    let alloc = change.mem_alloc_size as u32;
    with_setting(state, source, setting, alloc, magic as u32)
}
