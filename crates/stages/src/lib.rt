// One block of a file through the resampler: bytes to samples, samples to outputs, outputs to bytes.
//
// Everything here works on lent slices and knows nothing of files, so that its contracts say all that
// the small program does between a read and a write.
#![tactic(auto)]

ghost use Rattle.std.specs.Prelude.{◌≡◌, ◌*◌, ◌/◌, ◌≤◌, length, drop};
ghost use Rattle.resampler.specs.Answers.{told};
ghost use Rattle.edges.specs.Edges.{closing};
ghost use Rattle.stages.specs.Promises.{bare_stage, stage_of, Opens, Pulls, Feeds};

use resampler::{Answer, ResamplerState, state_of};

// What is kept between two reads. `held` is how many bytes, 0 or 1, stand at the start of the block: the
// first byte of a sample. `came` tells whether any sample came; no Option, since nothing goes with it.
#[derive(Clone, Copy)]
pub struct Kept {
    pub state: ResamplerState,
    pub held: usize,
    pub came: bool,
}

// What one call of the resampler left: the state for the next one, and how many bytes it handed on.
#[derive(Clone, Copy)]
pub struct Pulled {
    pub state: ResamplerState,
    pub size: usize,
}

// A new state, and its source rate set. A rate out of limits leaves a state with which every call of
// `process_float` is refused.
pub fn open(source: u32, target: u32, mem: &mut [f32], coefs: &mut [f32]) -> ResamplerState
    ensures { Opens source target mem.old coefs.old result mem.new coefs.new }
{
    let fresh = state_of(resampler::new(target));
    state_of(resampler::source_hz(fresh, source, mem, coefs))
}

// How many outputs an answer tells.
fn written_of(answer: Answer) -> u64
    ensures { result ≡ (told answer).written }
{
    answer.map_or(0, |accepted| accepted.written.0)
}

// One call of the resampler, and its outputs as bytes at the start of `text`. An empty input is
// refused, which changes nothing and hands nothing on.
// The slices are no struct, here and below: one of borrowed slices would be built anew at each call.
pub fn pull(
    state: ResamplerState,
    mem: &mut [f32],
    coefs: &[f32],
    input: &[f32],
    out: &mut [f32],
    text: &mut [u8],
) -> Pulled
    requires { 2 * length out.old ≤ length text.old }
    ensures { Pulls (bare_stage state mem.old coefs.now out.old) input.now text.old result mem.new out.new text.new }
{
    let answer = resampler::process_float(state, mem, coefs, input, out);
    let written = written_of(answer) as usize;
    let size = pcm::encode(&out[..written], text);
    Pulled {
        state: state_of(answer),
        size,
    }
}

// A block of bytes, the byte held at its front: its whole samples go through the resampler. Answers how
// many bytes it handed on.
pub fn feed(
    kept: &mut Kept,
    mem: &mut [f32],
    coefs: &[f32],
    bytes: &mut [u8],
    samples: &mut [f32],
    out: &mut [f32],
    text: &mut [u8],
) -> usize
    requires bytes_in_bounds { length bytes.old / 2 ≤ length samples.old }
    requires out_in_bounds { 2 * length out.old ≤ length text.old }
    ensures { Feeds (stage_of kept.old mem.old coefs.now out.old bytes.old) (drop kept.old.held bytes.old) text.old result kept.new.held (stage_of kept.new mem.new coefs.now out.new bytes.new) text.new }
{
    let count = pcm::decode(bytes, samples);
    let pulled = pull(kept.state, mem, coefs, &samples[..count], out, text);
    kept.state = pulled.state;
    kept.held = edges::keep_odd(bytes);
    kept.came |= count > 0;
    pulled.size
}

// The zeros that follow the samples go through the resampler.
pub fn close(
    kept: Kept,
    filt_len: u32,
    mem: &mut [f32],
    coefs: &[f32],
    samples: &mut [f32],
    out: &mut [f32],
    text: &mut [u8],
) -> Pulled
    requires filt_len_in_bounds { filt_len / 2 ≤ length samples.old }
    requires out_in_bounds { 2 * length out.old ≤ length text.old }
    ensures { Pulls (bare_stage kept.state mem.old coefs.now out.old) (closing kept.came filt_len) text.old result mem.new out.new text.new }
{
    let state = kept.state;
    let count = edges::closing_zeros(kept.came, filt_len);
    history::fill_zero(samples, 0, count);
    pull(state, mem, coefs, &samples[..count], out, text)
}
