// Holds our answers to answers that were made elsewhere: samples of sixteen bits to document 01's text,
// the sine to libm's, the tables of coefficients to the unchanged Rust's, and refusals and totals to
// document 01's numbers. Writes each line that is wrong, and then the totals.
//
// Only safety is proved here. A file that is missing or cut shows in the totals.
#![tactic(auto)]

mod conversions;
mod limits;
mod rated;
mod text;

ghost use Rattle.std.specs.Prelude.{◌<◌, ◌≤◌, length};

use std::fs;
use std::rt::Files;

// Whether a line is wrong: it was found so, or does not end where it should. One that is gets written.
fn is_wrong(rt: &impl Print, line: &[u8], right: bool) -> bool {
    let wrong = !right | !line.ends_with(b"\n");
    if wrong {
        let _ = rt.write_all(b"wrong: ");
        let _ = rt.write_all(line);
    }
    wrong
}

// How many of the whole lines are wrong.
fn count_wrong<F: Fn(&[u8]) -> bool>(
    rt: &impl Print,
    text: &[u8],
    width: usize,
    is_right: F,
) -> usize
    requires width { 0 < width }
    requires right { F.IsAlwaysCallable is_right }
{
    text.chunks_exact(width)
        .filter(|line| is_wrong(rt, line, is_right(line)))
        .count()
}

// How many were tried of this width in n, and how many of them are wrong. A part of a line at a file's
// end is told too.
fn print_totals(rt: &impl Print, name: &str, n: usize, width: usize, wrong: usize)
    requires { 0 < width }
{
    let tried = n / width;
    let part = if n % width > 0 {
        " and a part of a line"
    } else {
        ""
    };
    let _ = println!(rt; "{name}: {tried} tried{part}, {wrong} wrong");
}

// The bytes of a file, read into this room. One that is missing has none, and one whose reading fails
// ends there.
fn read_file<'a>(rt: &impl Files, name: &str, room: &'a mut [u8]) -> &'a [u8]
    ensures { length result.now ≤ length room.old }
{
    let Ok(mut file) = fs::open(rt, name) else {
        return &[];
    };
    let n = conforming::read_full(&mut file, room).unwrap_or_else(|cut| cut.count);
    &room[..n]
}

// Tries a file whose lines all have this width. One that is missing has no lines. The room is for more
// bytes than any of the files has.
fn try_file<F: Fn(&[u8]) -> bool>(rt: &(impl Files + Print), name: &str, width: usize, is_right: F)
    requires width { 0 < width }
    requires right { F.IsAlwaysCallable is_right }
{
    let mut room = [0; 98304];
    let text = read_file(rt, name, &mut room);
    let wrong = count_wrong(rt, text, width, is_right);
    print_totals(rt, name, text.len(), width, wrong);
}

// Whether the sample of this word does not come back as it was.
fn changes(word: u16) -> bool {
    let sample = sixteen::sample_of(word);
    let back = sixteen::to_i16(sixteen::from_i16(sample));
    sixteen::word_of(back) != word
}

// How many samples do not come back from `from_i16` and `to_i16` as they were.
fn count_changed() -> usize {
    (0..=u16::MAX).filter(|word| changes(*word)).count()
}

fn main(rt: HostRuntime) {
    try_file(&rt, "to_i16.txt", 14, conversions::sample_is_right);
    try_file(&rt, "sine.txt", 34, conversions::sine_is_right);
    try_file(
        &rt,
        "coefficients.txt",
        29,
        conversions::coefficient_is_right,
    );
    try_file(&rt, "limits.txt", 67, limits::is_right);
    print_totals(&rt, "from_i16 and back", 65536, 1, count_changed());
}
