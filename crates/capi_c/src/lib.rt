// What C calls: one export for each function of `capi`, with the same clauses, as the static library
// that `include/marshdeck.h` declares. Nothing is worked out here.
// The ten stand here once more for C's sake: a crate is a library or a static library, not both.
#![tactic(auto)]

ghost use Rattle.std.specs.Prelude.{◌≡◌};
ghost use Rattle.quality.specs.House.{house};
ghost use Rattle.sine.specs.Sine.{sine_at};
ghost use Rattle.sixteen.specs.Sixteen.{from_i16, to_i16};
ghost use Rattle.resampler.specs.Entries.{new_told, skip_told};
ghost use Rattle.recording.specs.Totals.{closed_total_told};
ghost use Rattle.flat.specs.Flat.{flat_told, flat_call, flat_total};
ghost use Rattle.capi.specs.Promises.{FlatSetsRate, FlatProcesses, FlatResets, needed_sizes};

use flat::{FlatAnswer, FlatSizes, FlatState, FlatTotal};

// A new state.
#[unsafe(no_mangle)]
pub extern "C" fn marshdeck_new(target_hz: u32) -> FlatAnswer
    ensures { result ≡ flat_told (new_told target_hz) }
{
    capi::marshdeck_new(target_hz)
}

// Sets the source rate.
#[unsafe(no_mangle)]
pub extern "C" fn marshdeck_set_rate(
    state: FlatState,
    source_hz: u32,
    mem: &mut [f32],
    coefs: &mut [f32],
) -> FlatAnswer
    ensures { FlatSetsRate state source_hz mem.old coefs.old result mem.new coefs.new }
{
    capi::marshdeck_set_rate(state, source_hz, mem, coefs)
}

// Resamples.
#[unsafe(no_mangle)]
pub extern "C" fn marshdeck_process(
    state: FlatState,
    mem: &mut [f32],
    coefs: &[f32],
    input: &[f32],
    out: &mut [f32],
) -> FlatAnswer
    ensures { FlatProcesses state mem.old coefs.now input.now out.old result mem.new out.new }
{
    capi::marshdeck_process(state, mem, coefs, input, out)
}

// Makes the state ready for another stream at the same rate.
#[unsafe(no_mangle)]
pub extern "C" fn marshdeck_reset(state: FlatState, mem: &mut [f32]) -> FlatAnswer
    ensures { FlatResets state mem.old result mem.new }
{
    capi::marshdeck_reset(state, mem)
}

// Leaves out the filter's run-in.
#[unsafe(no_mangle)]
pub extern "C" fn marshdeck_skip(state: FlatState) -> FlatAnswer
    ensures { result ≡ flat_call state (λ s. skip_told house s) }
{
    capi::marshdeck_skip(state)
}

// An f32 as a 16-bit sample.
#[unsafe(no_mangle)]
pub extern "C" fn marshdeck_to_i16(x: f32) -> i16
    ensures { result ≡ to_i16 x }
{
    capi::marshdeck_to_i16(x)
}

// A 16-bit sample as an f32.
#[unsafe(no_mangle)]
pub extern "C" fn marshdeck_from_i16(sample: i16) -> f32
    ensures { result ≡ from_i16 sample }
{
    capi::marshdeck_from_i16(sample)
}

// The sine that the coefficients are made with.
#[unsafe(no_mangle)]
pub extern "C" fn marshdeck_sine(angle: f64) -> f64
    ensures { result ≡ sine_at angle }
{
    capi::marshdeck_sine(angle)
}

// How many outputs a closed recording has.
#[unsafe(no_mangle)]
pub extern "C" fn marshdeck_closed_total(m: u64, source_hz: u32, target_hz: u32) -> FlatTotal
    ensures { result ≡ flat_total (closed_total_told source_hz target_hz m) }
{
    capi::marshdeck_closed_total(m, source_hz, target_hz)
}

// How long a history two rates need for a new state, and how many coefficients they have, so that a
// caller need not work out a filter to lend enough.
#[unsafe(no_mangle)]
pub extern "C" fn marshdeck_needed(source_hz: u32, target_hz: u32) -> FlatSizes
    ensures { result ≡ needed_sizes source_hz target_hz }
{
    capi::marshdeck_needed(source_hz, target_hz)
}
