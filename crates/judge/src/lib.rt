// What each call is to do, decided from the state's numbers and the lengths of the lent slices, in
// document 01's order of refusals: `Ok` where the call is accepted.
//
// No judge takes a slice, so none can read or change a sample, and none changes the state. Each
// answers for any state and any lengths; only the quality row has to be sane. That stays a clause:
// `zero_refused_everywhere` and other theorems of `pinned` speak of every row, sane or not.
// Row, state and lengths stay apart: the verdicts of specs/ and the theorems on them take each by itself.
#![tactic(auto)]

ghost use Rattle.std.specs.Prelude.{◌≡◌, ◌≤◌, max};
ghost use Rattle.sizes.specs.Sizes.{history_needed, max_history};
ghost use Rattle.quality.specs.Quality.{Sane};
ghost use Rattle.judge.specs.Refusals.{refusal_number};
ghost use Rattle.judge.specs.Verdicts.{new_verdict, rate_verdict, process_verdict, reset_verdict, skip_verdict};

use quality::QualityMapping;
use rates::Setting;
use state::ResamplerState;

// The most samples that one call takes, and the most that it gives.
const MAX_CALL: usize = 16777216;

// Why a call is refused. `Mark` and `Version` are the program's, about a file's header; no judge here
// gives them.
#[derive(Clone, Copy, Debug, PartialEq, Eq)]
pub enum Refusal {
    Rate,
    History,
    Coefficients,
    EmptyInput,
    TooLong,
    NoRate,
    State,
    Mark,
    Version,
}

impl Refusal {
    // Document 01's number. `u32::from` would be no plainer: it would not say whose number it is.
    pub fn number(self) -> u32
        ensures { result ≡ refusal_number self }
    {
        match self {
            Refusal::Rate => 1,
            Refusal::History => 2,
            Refusal::Coefficients => 3,
            Refusal::EmptyInput => 4,
            Refusal::TooLong => 5,
            Refusal::NoRate => 6,
            Refusal::State => 7,
            Refusal::Mark => 8,
            Refusal::Version => 9,
        }
    }
}

// A new state for a target rate.
pub fn judge_new(target: u32) -> Result<(), Refusal>
    ensures { result ≡ new_verdict target }
{
    if sizes::in_limits(target) {
        return Ok(());
    }
    Err(Refusal::Rate)
}

// Setting a source rate. The same rate again is accepted however short the slices are.
pub fn judge_rate(
    row: QualityMapping,
    state: ResamplerState,
    source: u32,
    mem_len: usize,
    coefs_len: usize,
) -> Result<(), Refusal>
    requires { Sane row }
    ensures { result ≡ rate_verdict row state source mem_len coefs_len }
{
    if !state.belongs(row) {
        return Err(Refusal::State);
    }
    if !sizes::in_limits(source) {
        return Err(Refusal::Rate);
    }
    if state.source == source {
        return Ok(());
    }
    let setting = Setting::new(row, source, state.target);
    if mem_len < history_after(state.mem_alloc_size, setting.filt_len) as usize {
        return Err(Refusal::History);
    }
    if coefs_len < setting.coefs as usize {
        return Err(Refusal::Coefficients);
    }
    Ok(())
}

// Processing. An output without room is no reason to refuse; an empty input is.
pub fn judge_process(
    row: QualityMapping,
    state: ResamplerState,
    mem_len: usize,
    coefs_len: usize,
    in_len: usize,
    out_len: usize,
) -> Result<(), Refusal>
    requires { Sane row }
    ensures { result ≡ process_verdict row state mem_len coefs_len in_len out_len }
{
    if !state.belongs(row) {
        return Err(Refusal::State);
    }
    if state.source == 0 {
        return Err(Refusal::NoRate);
    }
    if mem_len < state.mem_alloc_size as usize {
        return Err(Refusal::History);
    }
    if coefs_len < state.setting().coefs as usize {
        return Err(Refusal::Coefficients);
    }
    if in_len == 0 {
        return Err(Refusal::EmptyInput);
    }
    if (MAX_CALL < in_len) | (MAX_CALL < out_len) {
        return Err(Refusal::TooLong);
    }
    Ok(())
}

// Resetting. Without a source rate no history is needed yet.
pub fn judge_reset(
    row: QualityMapping,
    state: ResamplerState,
    mem_len: usize,
) -> Result<(), Refusal>
    requires { Sane row }
    ensures { result ≡ reset_verdict row state mem_len }
{
    if !state.belongs(row) {
        return Err(Refusal::State);
    }
    let alloc = state.mem_alloc_size as usize;
    if mem_len < alloc {
        return Err(Refusal::History);
    }
    Ok(())
}

// Skipping the zeros that a stream starts with.
pub fn judge_skip(row: QualityMapping, state: ResamplerState) -> Result<(), Refusal>
    requires { Sane row }
    ensures { result ≡ skip_verdict row state }
{
    if state.belongs(row) {
        return Ok(());
    }
    Err(Refusal::State)
}

// How long the history is once a filter of this length is set: it never shrinks.
pub fn history_after(mem_alloc_size: u32, filt_len: u32) -> u32
    requires { (1 ≤ filt_len) × (history_needed filt_len ≤ max_history) }
    ensures { result ≡ max mem_alloc_size (history_needed filt_len) }
{
    let needed = sizes::history_needed(filt_len);
    mem_alloc_size.max(needed)
}
