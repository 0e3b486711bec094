// Blocks of bytes as samples, and back.
ghost use Rattle.std.specs.Prelude.{◌≡◌, ◌+◌, ◌*◌, ◌<◌, length, get_or};
ghost use Rattle.std.specs.Float.{nan};
ghost use Rattle.pcm.specs.Blocks.{samples_of, Decodes, Encodes};

// Sample i of a block, as an f32.
fn sample_at(bytes: &[u8], i: usize) -> f32
    requires { 2 * i + 1 < length bytes.now }
    ensures { result ≡ get_or (samples_of bytes.now) i nan }
{
    sixteen::from_i16(sixteen::sample_of(crate::word16(bytes, 2 * i)))
}

// The samples of a block, as f32 at the start of `out`, and how many they are: as many as there are,
// without a last odd byte, and as fit. The rest of `out` is left as it was.
pub fn decode(bytes: &[u8], out: &mut [f32]) -> usize
    ensures { Decodes bytes.now out.old out.new result }
{
    let n = (bytes.len() / 2).min(out.len());
    for i in 0..n {
        out[i] = sample_at(bytes, i);
    }
    n
}

// A block of f32 as samples, two bytes each at the start of `out`, and how many bytes they are: as
// many samples as there are and as fit whole. The rest of `out` is left as it was.
pub fn encode(xs: &[f32], out: &mut [u8]) -> usize
    ensures { Encodes xs.now out.old out.new result }
{
    let count = xs.len().min(out.len() / 2);
    for i in 0..count {
        let word = sixteen::word_of(sixteen::to_i16(xs[i]));
        let [low, high] = word.to_le_bytes();
        out[2 * i] = low;
        out[2 * i + 1] = high;
    }
    2 * count
}
