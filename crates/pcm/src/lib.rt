// The small program's sound: the header of a file, and blocks of signed 16-bit samples as f32 and
// back.
//
// No public function has a `requires`, and none reads or writes a file. A block converts what fits,
// and says how much that was.
#![tactic(auto)]

ghost use Rattle.std.specs.Prelude.{◌≡◌, ◌+◌, ◌≤◌, length};
ghost use Rattle.pcm.specs.Header.{word16, word32, has_mark, known_version, header_of};

use judge::Refusal;

mod samples;

pub use samples::{decode, encode};

// How many bytes a header has.
const HEADER_LENGTH: usize = 13;

// What a header says of its file: the source rate and the target rate.
#[derive(Clone, Copy, PartialEq, Eq)]
pub struct Rates {
    pub source: u32,
    pub target: u32,
}

// The 16 bits from byte i on, the low byte first.
fn word16(bytes: &[u8], i: usize) -> u16
    requires { i + 2 ≤ length bytes.now }
    ensures { result ≡ word16 bytes.now i }
{
    u16::from_le_bytes([bytes[i], bytes[i + 1]])
}

// The 32 bits from byte i on, the low byte first.
fn word32(bytes: &[u8], i: usize) -> u32
    requires { i + 4 ≤ length bytes.now }
    ensures { result ≡ word32 bytes.now i }
{
    u32::from_le_bytes([bytes[i], bytes[i + 1], bytes[i + 2], bytes[i + 3]])
}

// Whether bytes 0 to 2 are `DVS`.
fn has_mark(bytes: &[u8]) -> bool
    ensures { result ≡ has_mark bytes.now }
{
    bytes.starts_with(b"DVS")
}

// Whether a file of this version can be read.
fn known_version(version: u16) -> bool
    ensures { result ≡ known_version version }
{
    version == 1
}

// The rates of a header, or why it is refused: a short one as one with another mark, whatever version it
// shows; then the version is judged, then the rates.
pub fn read_header(bytes: &[u8]) -> Result<Rates, Refusal>
    ensures { result ≡ header_of bytes.now }
{
    if bytes.len() < HEADER_LENGTH || !has_mark(bytes) {
        return Err(Refusal::Mark);
    }
    if !known_version(word16(bytes, 3)) {
        return Err(Refusal::Version);
    }
    let source = word32(bytes, 5);
    let target = word32(bytes, 9);
    if !sizes::in_limits(source) || !sizes::in_limits(target) {
        return Err(Refusal::Rate);
    }
    Ok(Rates { source, target })
}
