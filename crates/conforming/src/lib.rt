// The small program: reads a file, pulls its sound onto the target rate of its header, and writes what
// comes out.
//
// What it makes of the bytes is proved of `pcm` and `stages`, and put together in `conformed`: however a
// file is cut into reads, the blocks handed on to be written are `conformed` of it. Here are only the
// reads, the writes and the loops between them. Nothing grows with the file.
#![tactic(auto)]

ghost use Rattle.std.specs.Prelude.{◌≡◌};
ghost use Rattle.judge.specs.Refusals.{refusal_number};
ghost use Rattle.conformed.specs.Conformed.{refusal_line};
ghost use Rattle.conformed.specs.Program.{OfAHeader};
ghost use Rattle.conforming.specs.Endings.{Ends};

use crate::files::Streams;
use judge::Refusal;
use std::io::{Read, Write};

mod copying;
mod files;
mod resampling;

pub use files::{Cut, read_full};

// Why a run stopped before the end of its file. Refused: its line is all that was written. A read or a
// write that failed is told on standard error; what was written before it stands.
#[derive(Clone, Copy, PartialEq, Eq)]
pub enum Stopped {
    Refused(Refusal),
    ReadFailed,
    WriteFailed,
}

// Conforms the file that `input` reads, onto `output`. Standard error is the runtime's.
pub fn run<R: Read, W: Write>(
    rt: &impl Eprint,
    input: &mut R,
    output: &mut W,
) -> Result<(), Stopped>
    ensures { Ends result }
{
    let mut streams = Streams { rt, input, output };
    let mut head = [0u8; 13];
    let count = streams.read_full(&mut head)?;
    match pcm::read_header(&head[..count]) {
        Err(refusal) => refuse(&mut streams, refusal),
        Ok(rates) => {
            if rates.source == rates.target {
                return copying::copy(&mut streams);
            }
            resampling::resample(&mut streams, rates)
        }
    }
}

// Writes the line of a refusal, and nothing else.
fn refuse<E: Eprint, R: Read, W: Write>(
    streams: &mut Streams<E, R, W>,
    refusal: Refusal,
) -> Result<(), Stopped>
    requires { OfAHeader refusal }
    ensures { Ends result }
{
    streams.write(&refusal_line(refusal))?;
    Err(Stopped::Refused(refusal))
}

// `refused N` and the line's end.
fn refusal_line(refusal: Refusal) -> [u8; 10]
    ensures { result ≡ refusal_line (refusal_number refusal) }
{
    let digit = 48 + refusal.number() as u8;
    [b'r', b'e', b'f', b'u', b's', b'e', b'd', b' ', digit, b'\n']
}
