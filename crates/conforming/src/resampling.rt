// Rates that differ: each read goes through the resampler, and after the last one the zeros that close a
// recording do.
ghost use Rattle.std.specs.Prelude.{◌≤◌};
ghost use Rattle.sizes.specs.Sizes.{InLimits};
ghost use Rattle.conforming.specs.Endings.{Ends};

use crate::Stopped;
use crate::files::Streams;
use pcm::Rates;
use resampler::ResamplerState;
use stages::Kept;
use std::io::{Read, Write};

// Enough history and coefficients for any two rates in limits.
const HISTORY: usize = 7839;

const COEFFICIENTS: usize = 7688;

// What one read brings at most. With the byte held these are 1,024 samples, each of which leads to 48
// outputs at most; there is room for one more, so that every call reads all that it is offered.
const READ: usize = 2048;

const OUTPUTS: usize = 49153;

// Two bytes for each output.
const TEXT: usize = 98306;

// Half of the longest filter, and more than the samples of a read.
const SAMPLES: usize = 3840;

// The room in which a file is resampled: what is lent to the resampler, and the blocks around it. It is
// some 375 KB, made once, and nothing of it grows with the file.
#[derive(Drop)]
struct Desk {
    mem: [f32; HISTORY],
    coefs: [f32; COEFFICIENTS],
    bytes: [u8; READ],
    samples: [f32; SAMPLES],
    out: [f32; OUTPUTS],
    text: [u8; TEXT],
}

impl Desk {
    // The state for these rates. Its filter is at most 7,680 long, so that half of it fits the samples.
    fn open(&mut self, rates: Rates) -> ResamplerState
        requires { InLimits rates.source × InLimits rates.target }
        ensures { result.filt_len ≤ 7680 }
    {
        stages::open(rates.source, rates.target, &mut self.mem, &mut self.coefs)
    }

    // Reads once behind the byte held, and writes what the whole samples lead to. Answers how many bytes
    // the read brought.
    fn feed<E: Eprint, R: Read, W: Write>(
        &mut self,
        streams: &mut Streams<E, R, W>,
        kept: &mut Kept,
    ) -> Result<usize, Stopped>
        requires { kept.old.held ≤ 1 }
        ensures held_to { kept.new.held ≤ 1 }
        ensures ends { Ends result }
    {
        let held = kept.held;
        let bytes = &mut self.bytes[..];
        let count = streams.read(&mut bytes[held..])?;
        if count == 0 {
            return Ok(0);
        }
        let size = stages::feed(
            kept,
            &mut self.mem,
            &self.coefs,
            &mut bytes[..held + count],
            &mut self.samples,
            &mut self.out,
            &mut self.text,
        );
        streams.write(&self.text[..size])?;
        Ok(count)
    }

    // Where all was read, the zeros that close a recording go through, if any sample came. An odd byte
    // that is still held is dropped.
    fn close<E: Eprint, R: Read, W: Write>(
        &mut self,
        streams: &mut Streams<E, R, W>,
        kept: Kept,
        filt_len: u32,
    ) -> Result<(), Stopped>
        requires { filt_len ≤ 7680 }
        ensures { Ends result }
    {
        let closed = stages::close(
            kept,
            filt_len,
            &mut self.mem,
            &self.coefs,
            &mut self.samples,
            &mut self.out,
            &mut self.text,
        );
        streams.write(&self.text[..closed.size])
    }
}

// The room, the first rate, the reads, and then the zeros. The turns are counted, as where bytes are
// copied.
pub fn resample<E: Eprint, R: Read, W: Write>(
    streams: &mut Streams<E, R, W>,
    rates: Rates,
) -> Result<(), Stopped>
    requires { InLimits rates.source × InLimits rates.target }
    ensures { Ends result }
{
    let mut desk = Desk {
        mem: [0.0; HISTORY],
        coefs: [0.0; COEFFICIENTS],
        bytes: [0; READ],
        samples: [0.0; SAMPLES],
        out: [0.0; OUTPUTS],
        text: [0; TEXT],
    };
    let state = desk.open(rates);
    let filt_len = state.filt_len;
    let mut kept = Kept {
        state,
        held: 0,
        came: false,
    };
    for _ in 0..u64::MAX {
        if desk.feed(streams, &mut kept)? == 0 {
            return desk.close(streams, kept, filt_len);
        }
    }
    Ok(())
}
