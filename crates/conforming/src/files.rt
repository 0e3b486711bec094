// Reading and writing, with a line on standard error where the system refuses. No contract can say which
// bytes a file gives or takes; these say how many there can be.
ghost use Rattle.std.specs.Prelude.{◌≡◌, ◌≤◌, length, IfOk, MatchResult};
ghost use Rattle.conforming.specs.Endings.{Ends};

use crate::Stopped;
use std::io;
use std::io::{Read, Write};

// A reading that the system cut short: how many bytes came before, and the system's words.
#[derive(Clone, Copy)]
pub struct Cut {
    pub count: usize,
    pub error: io::Error,
}

// Reads until the bytes are full, the input ends or the system refuses, and answers how many bytes came.
pub fn read_full<R: Read>(input: &mut R, bytes: &mut [u8]) -> Result<usize, Cut>
    ensures { MatchResult result (λ count. count ≤ length bytes.new) (λ cut. cut.count ≤ length bytes.new) }
{
    let mut count = 0;
    // A turn brings as many bytes as the system gives, so no `for` counts them.
    while count < bytes.len() {
        match input.read(&mut bytes[count..]) {
            Ok(0) => break,
            Ok(more) => count += more,
            Err(error) => return Err(Cut { count, error }),
        }
    }
    Ok(count)
}

// Where a run reads and writes, and the runtime on whose standard error it tells what failed.
#[derive(Drop)]
pub struct Streams<'e, 'i, 'o, E, R, W> {
    pub rt: &'e E,
    pub input: &'i mut R,
    pub output: &'o mut W,
}

impl<E: Eprint, R: Read, W: Write> Streams<'_, '_, '_, E, R, W> {
    // Reads until the bytes are full or the input ends.
    pub fn read_full(&mut self, bytes: &mut [u8]) -> Result<usize, Stopped>
        ensures bound { IfOk result (λ count. count ≤ length bytes.new) }
        ensures ends { Ends result }
    {
        read_full(self.input, bytes).map_err(|cut| stop(
            self.rt,
            Stopped::ReadFailed,
            "read",
            cut.error,
        ))
    }

    // One read, which may bring fewer bytes than there is room for. None is the end of the input.
    pub fn read(&mut self, part: &mut [u8]) -> Result<usize, Stopped>
        ensures bound { IfOk result (λ count. count ≤ length part.old) }
        ensures ends { Ends result }
    {
        self.input
            .read(part)
            .map_err(|e| stop(self.rt, Stopped::ReadFailed, "read", e))
    }

    // Writes all of these bytes.
    pub fn write(&mut self, bytes: &[u8]) -> Result<(), Stopped>
        ensures { Ends result }
    {
        self.output
            .write_all(bytes)
            .map_err(|e| stop(self.rt, Stopped::WriteFailed, "write", e))
    }
}

// Tells what the system refused and in which words, and stops the run.
fn stop(rt: &impl Eprint, stopped: Stopped, what: &str, e: io::Error) -> Stopped
    ensures { result ≡ stopped }
{
    let _ = eprintln!(rt; "conform: cannot {what}: {e}");
    stopped
}
