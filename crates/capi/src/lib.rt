// The resampler for callers in C, and so in every language that calls C: `include/marshdeck.h` declares
// what the static library `capi_c` exports over this crate, name by name, and says what C has to promise
// of its pointers and of the floating-point mode.
//
// Each function but `marshdeck_needed` is one function of ours, through the twins of the crate `flat` where it
// has a state or an enum, and its contract is that function's, said of the state that the flat one stands
// for. None has a `requires`. Numbers that no state has get refusal 7 before any slice is looked at.
#![tactic(auto)]

ghost use Rattle.std.specs.Prelude.{◌≡◌};
ghost use Rattle.quality.specs.House.{house};
ghost use Rattle.sine.specs.Sine.{sine_at};
ghost use Rattle.sixteen.specs.Sixteen.{from_i16, to_i16};
ghost use Rattle.resampler.specs.Entries.{new_told, skip_told};
ghost use Rattle.recording.specs.Totals.{closed_total_told};
ghost use Rattle.flat.specs.Flat.{flat_told, flat_call, flat_total};
ghost use Rattle.capi.specs.Promises.{FlatSetsRate, FlatProcesses, FlatResets, needed_sizes};

use flat::{FlatAnswer, FlatSizes, FlatState, FlatTotal};
use quality::QualityMapping;
use rates::Setting;
use resampler::Consumed;

// A new state.
pub fn marshdeck_new(target_hz: u32) -> FlatAnswer
    ensures { result ≡ flat_told (new_told target_hz) }
{
    flat::flat_answer(resampler::new(target_hz))
}

// Sets the source rate.
pub fn marshdeck_set_rate(
    state: FlatState,
    source_hz: u32,
    mem: &mut [f32],
    coefs: &mut [f32],
) -> FlatAnswer
    ensures { FlatSetsRate state source_hz mem.old coefs.old result mem.new coefs.new }
{
    flat::called(
        state,
        &mut |state| resampler::source_hz(state, source_hz, mem, coefs),
    )
}

// Resamples.
pub fn marshdeck_process(
    state: FlatState,
    mem: &mut [f32],
    coefs: &[f32],
    input: &[f32],
    out: &mut [f32],
) -> FlatAnswer
    ensures { FlatProcesses state mem.old coefs.now input.now out.old result mem.new out.new }
{
    flat::called(
        state,
        &mut |state| resampler::process_float(state, mem, coefs, input, out),
    )
}

// Makes the state ready for another stream at the same rate.
pub fn marshdeck_reset(state: FlatState, mem: &mut [f32]) -> FlatAnswer
    ensures { FlatResets state mem.old result mem.new }
{
    flat::called(state, &mut |state| resampler::reset_mem(state, mem))
}

// Leaves out the filter's run-in.
pub fn marshdeck_skip(state: FlatState) -> FlatAnswer
    ensures { result ≡ flat_call state (λ s. skip_told house s) }
{
    flat::called(state, &mut |state| resampler::skip_zeros(state))
}

// An f32 as a 16-bit sample.
pub fn marshdeck_to_i16(x: f32) -> i16
    ensures { result ≡ to_i16 x }
{
    sixteen::to_i16(x)
}

// A 16-bit sample as an f32.
pub fn marshdeck_from_i16(sample: i16) -> f32
    ensures { result ≡ from_i16 sample }
{
    sixteen::from_i16(sample)
}

// The sine that the coefficients are made with.
pub fn marshdeck_sine(angle: f64) -> f64
    ensures { result ≡ sine_at angle }
{
    sine::sine(angle)
}

// How many outputs a closed recording has.
pub fn marshdeck_closed_total(m: u64, source_hz: u32, target_hz: u32) -> FlatTotal
    ensures { result ≡ flat_total (closed_total_told source_hz target_hz m) }
{
    recording::closed_total(Consumed(m), source_hz, target_hz).into()
}

// How long a history two rates need for a new state, and how many coefficients they have, so that a
// caller need not work out a filter to lend enough.
pub fn marshdeck_needed(source_hz: u32, target_hz: u32) -> FlatSizes
    ensures { result ≡ needed_sizes source_hz target_hz }
{
    if !sizes::in_limits(source_hz) || !sizes::in_limits(target_hz) {
        return flat::no_sizes();
    }
    let setting = Setting::new(QualityMapping::house(), source_hz, target_hz);
    FlatSizes {
        refusal: 0,
        history: sizes::history_needed(setting.filt_len),
        coefficients: setting.coefs,
    }
}
