// A line as an order: what to do, and with what.
//
// The samples that a line names are laid into the player's input while they are read. Should the line turn
// out bad, nothing is played after it.
use crate::player::Player;
use crate::script::Script;
use crate::segment::Samples;
use crate::{Fault, segment};
use flat::FlatState;
use std::io::Read;

// What a line says: nothing, where it is empty or a remark, or an order. At the script's end there is none.
#[derive(Clone, Copy)]
pub enum Line {
    End,
    Remark,
    Order(Order),
}

// What is lent to the calls.
#[derive(Clone, Copy)]
pub enum Lent {
    History,
    Coefs,
}

// An operation and its numbers. The samples of a call and of a poke are the player's input, and a forged state
// is the player's own with some numbers overwritten.
#[derive(Clone, Copy)]
pub enum Order {
    New {
        target: u32,
    },
    Rate {
        source: u32,
    },
    Process {
        room: u32,
    },
    Lend {
        history: u32,
        coefs: u32,
        filler: f32,
    },
    Poke {
        lent: Lent,
        index: u32,
    },
    Reset,
    Skip,
    Forge {
        state: FlatState,
    },
}

impl Line {
    // The line after the one that the script is at the end of.
    pub fn read<R: Read>(script: &mut Script<R>, player: &mut Player) -> Result<Line, Fault> {
        script.step()?;
        match script.peek() {
            None => Ok(Line::End),
            Some(b'\n' | b'#') => {
                script.skip_line()?;
                Ok(Line::Remark)
            }
            Some(_) => {
                let order = Order::read(script, player.answer.state, &mut player.input)?;
                script.expect_line_end()?;
                Ok(Line::Order(order))
            }
        }
    }
}

impl Order {
    // The operation that is named here, with as many words as it has.
    fn read<R: Read>(
        script: &mut Script<R>,
        state: FlatState,
        input: &mut Samples,
    ) -> Result<Order, Fault> {
        let name = script.name()?;
        script.next_word()?;
        input.clear();
        match name.as_str() {
            "new" => Ok(Order::New {
                target: script.argument()?,
            }),
            "rate" => Ok(Order::Rate {
                source: script.argument()?,
            }),
            "process" => process(script, input),
            "lend" => lend(script),
            "poke" => poke(script, input),
            "pokes" => pokes(script, input),
            "reset" => Ok(Order::Reset),
            "skip" => Ok(Order::Skip),
            "forge" => forge(script, state),
            _ => Err(Fault::Unplayable),
        }
    }
}

// The room for the output, and any number of segments.
fn process<R: Read>(script: &mut Script<R>, input: &mut Samples) -> Result<Order, Fault> {
    let room = script.argument()?;
    for _ in 0..u64::MAX {
        if script.at_line_end() {
            break;
        }
        segment::read(script, input)?;
    }
    Ok(Order::Process { room })
}

// Two lengths, and what fills up.
fn lend<R: Read>(script: &mut Script<R>) -> Result<Order, Fault> {
    let history = script.argument()?;
    let coefs = script.argument()?;
    let filler = bits::float_of(script.pattern()?);
    Ok(Order::Lend {
        history,
        coefs,
        filler,
    })
}

// A place, and the one entry that it takes.
fn poke<R: Read>(script: &mut Script<R>, input: &mut Samples) -> Result<Order, Fault> {
    let order = place(script)?;
    segment::push(input, bits::float_of(script.pattern()?))?;
    Ok(order)
}

// A place, and a segment for the entries from there on.
fn pokes<R: Read>(script: &mut Script<R>, input: &mut Samples) -> Result<Order, Fault> {
    let order = place(script)?;
    segment::read(script, input)?;
    Ok(order)
}

// A lent slice, and where in it a poke begins.
fn place<R: Read>(script: &mut Script<R>) -> Result<Order, Fault> {
    let lent = match script.name()?.as_str() {
        "h" => Lent::History,
        "c" => Lent::Coefs,
        _ => return Err(Fault::BadLine),
    };
    script.next_word()?;
    let index = script.argument()?;
    Ok(Order::Poke { lent, index })
}

// Any number of fields, none too; of a field that is there twice the last counts.
// The loop is that of `process`: one function for both would ask for a closure and a clause on it, to save four lines.
fn forge<R: Read>(script: &mut Script<R>, state: FlatState) -> Result<Order, Fault> {
    let mut state = state;
    for _ in 0..u64::MAX {
        if script.at_line_end() {
            break;
        }
        field(script, &mut state)?;
    }
    Ok(Order::Forge { state })
}

// FIELD=V, and on to the next word. The cutoff is given as bits.
fn field<R: Read>(script: &mut Script<R>, state: &mut FlatState) -> Result<(), Fault> {
    let name = script.name()?;
    script.expect_byte(b'=')?;
    if name.as_str() == "cutoff" {
        state.cutoff = bits::float_of(script.pattern()?);
    } else {
        let number = script.decimal()?;
        overwrite(state, name.as_str(), number)?;
    }
    script.next_word()
}

// Overwrites the number that a field names.
fn overwrite(state: &mut FlatState, field: &str, number: u32) -> Result<(), Fault> {
    match field {
        "target" => state.target = number,
        "source" => state.source = number,
        "num" => state.num = number,
        "den" => state.den = number,
        "n" => state.filt_len = number,
        "alloc" => state.mem_alloc_size = number,
        "buffer" => state.buffer_size = number,
        "int" => state.int_advance = number,
        "frac" => state.frac_advance = number,
        "oversample" => state.oversample = number,
        "started" => state.started = number,
        "kernel" => state.kernel = number,
        "position" => state.last_sample = number,
        "phase" => state.samp_frac_num = number,
        "magic" => state.magic_samples = number,
        _ => return Err(Fault::BadLine),
    }
    Ok(())
}
