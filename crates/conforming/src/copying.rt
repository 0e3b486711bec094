// Equal rates: the bytes are copied, but for a last odd one.
ghost use Rattle.std.specs.Prelude.{◌≤◌, IfOk};
ghost use Rattle.conforming.specs.Endings.{Ends};

use crate::Stopped;
use crate::files::Streams;
use std::io::{Read, Write};

// Writes the whole samples of a block, and puts an odd byte after them to its front. Answers how many
// bytes are held there.
fn copy_some<E: Eprint, R: Read, W: Write>(
    streams: &mut Streams<E, R, W>,
    block: &mut [u8],
) -> Result<usize, Stopped>
    ensures held_to { IfOk result (λ held. held ≤ 1) }
    ensures ends { Ends result }
{
    let n = block.len();
    streams.write(&block[..n - n % 2])?;
    Ok(edges::keep_odd(block))
}

// A proved loop has to end, and nothing says that the input does: so the turns are counted, up to a
// number that no run uses up.
pub fn copy<E: Eprint, R: Read, W: Write>(streams: &mut Streams<E, R, W>) -> Result<(), Stopped>
    ensures { Ends result }
{
    let mut bytes = [0u8; 2048];
    let mut held = 0;
    for _ in 0..u64::MAX {
        let count = streams.read(&mut bytes[held..])?;
        if count == 0 {
            break;
        }
        held = copy_some(streams, &mut bytes[..held + count])?;
    }
    Ok(())
}
