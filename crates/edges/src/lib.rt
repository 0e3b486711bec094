// What stands at the edges of a file's blocks: the first byte of a sample whose second is not read yet,
// and the zeros that follow the last sample.
#![tactic(auto)]

ghost use Rattle.std.specs.Prelude.{◌≡◌, ◌%◌, length, take};
ghost use Rattle.edges.specs.Edges.{odd_of, closing_zeros};

// Puts an odd last byte of a block to its front, for the next block to begin with. Answers how many
// bytes that is.
pub fn keep_odd(bytes: &mut [u8]) -> usize
    ensures bytes_after { take result bytes.new ≡ odd_of bytes.old }
    ensures value { result ≡ length bytes.old % 2 }
{
    let n = bytes.len();
    if n % 2 == 0 {
        return 0;
    }
    bytes[0] = bytes[n - 1];
    1
}

// How many zeros follow the samples, for a filter of this length.
pub fn closing_zeros(came: bool, filt_len: u32) -> usize
    ensures { result ≡ closing_zeros came filt_len }
{
    if came {
        return (filt_len / 2) as usize;
    }
    0
}
