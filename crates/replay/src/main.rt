// Plays a script of calls from standard input, and writes a line for each: every number that the call
// answered, all numbers of the state, a sum over each lent slice, and the bits of the outputs.
//
// A report of a fault can so be a script, and what two builds answer to one can be compared line by
// line. docs/REPLAY.md has the words of a script. A line that cannot be played is named by its number,
// and ends the run. Nothing is proved of the answers here but that the program is safe and ends; what
// the calls answer is the resampler's contract.
#![tactic(auto)]

mod answer;
mod order;
mod player;
mod script;
mod segment;

use order::Line;
use player::Player;
use script::Script;
use std::io::Read;

// Why a run ends before its script does: a byte that does not fit its line, a line that fits but cannot be
// played, a read or a write that failed.
#[derive(Clone, Copy)]
pub enum Fault {
    BadLine,
    Unplayable,
    Unreadable,
    Unwritable,
}

// Nothing says that a script ends, so its lines are counted, up to a number that no run uses up.
fn main(rt: HostRuntime) {
    let mut script = Script::new(rt.stdin());
    let mut player = Player::new();
    for line in 1..=u64::MAX {
        match turn(&rt, &mut script, &mut player) {
            Ok(true) => {}
            Ok(false) => break,
            Err(fault) => {
                report(&rt, line, fault);
                // Where the bytes of the line fit, the one that comes next is taken, as after every line.
                if matches!(fault, Fault::Unplayable | Fault::Unwritable) {
                    let _ = script.step();
                }
                break;
            }
        }
    }
}

// One line, and whether the script goes on. The next line is read only once the answer is out, so that a
// script can be typed.
fn turn<R: Read>(
    rt: &impl Print,
    script: &mut Script<R>,
    player: &mut Player,
) -> Result<bool, Fault> {
    match Line::read(script, player)? {
        Line::End => Ok(false),
        Line::Remark => Ok(true),
        Line::Order(order) => {
            player.play(order).map_err(|_| Fault::Unplayable)?;
            answer::tell(rt, player)?;
            Ok(true)
        }
    }
}

// Says why a run ends before its script does. Where not even that can be written there is nothing left to
// do.
fn report(rt: &(impl Print + Eprint), line: u64, fault: Fault) {
    let _ = match fault {
        Fault::BadLine | Fault::Unplayable => println!(rt; "bad line {line}"),
        Fault::Unreadable => eprintln!(rt; "replay: cannot read the script"),
        Fault::Unwritable => eprintln!(rt; "replay: cannot write the answer"),
    };
}
