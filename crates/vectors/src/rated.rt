// What the public entries make of two rates.
//
// The coefficients are made anew for each question, about a second for all of them: so no answer
// depends on the question before.
use judge::Refusal;
use quality::QualityMapping;
use resampler::state_of;
use state::ResamplerState;

// Makes a state with a rate, and its coefficients. Where a rate is refused, the state's source is 0.
fn rated(source: u32, target: u32, coefs: &mut [f32; 7688]) -> ResamplerState {
    let mut mem = [0.0f32; 7839];
    let state = state_of(resampler::new(target));
    state_of(resampler::source_hz(state, source, &mut mem, coefs))
}

// A coefficient of the table for these rates. NaN where a rate is refused, or no table is so long.
pub fn coefficient(source: u32, target: u32, i: usize) -> f32 {
    let mut coefs = [0.0f32; 7688];
    let state = rated(source, target, &mut coefs);
    if state.source > 0 && i < 7688 {
        return coefs[i];
    }
    0.0 / 0.0
}

// Whether a call is made. From 48000 to 16000 n is 480, so the history needs 639 entries, and the kernel
// is direct with 480 coefficients.
pub fn process_verdict(
    source: u32,
    target: u32,
    in_len: usize,
    out_len: usize,
) -> Result<(), Refusal> {
    let mut coefs = [0.0f32; 7688];
    let state = rated(source, target, &mut coefs);
    judge::judge_process(QualityMapping::house(), state, 639, 480, in_len, out_len)
}
