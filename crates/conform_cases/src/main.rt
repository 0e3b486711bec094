// Runs the small program's code on whole files. Each pair of arguments names an input and what it has to
// give, both under data/. Writes the name of each input that gave something else, and then the totals.
#![tactic(auto)]

ghost use Rattle.std.specs.Prelude.{◌≤◌, length, IfSome};

use conforming::Stopped;
use std::env::FillError;
use std::io::Read;
use std::rt::{Env, Files};
use std::{fs, str};

// The bytes of a file that come next, as many as there is room for. A file whose reading fails ends
// there. Not by `conforming::read_full`: one that read too little would find all files the same.
fn read_block<'a, R: Read>(file: &mut R, room: &'a mut [u8]) -> &'a [u8]
    ensures { length result.now ≤ length room.old }
{
    let mut count = 0;
    while count < room.len() {
        match file.read(&mut room[count..]) {
            Ok(0) | Err(_) => break,
            Ok(more) => count += more,
        }
    }
    &room[..count]
}

// Compares a block of each of two files. None where the blocks are the same and more may follow, else
// whether the files are the same.
fn compare_some<R: Read>(a: &mut R, b: &mut R) -> Option<bool> {
    let mut xs = [0u8; 4096];
    let mut ys = [0u8; 4096];
    let x = read_block(a, &mut xs);
    let y = read_block(b, &mut ys);
    let same = x == y;
    if same && x.len() == 4096 {
        None
    } else {
        Some(same)
    }
}

fn same_files<R: Read>(a: &mut R, b: &mut R) -> bool {
    (0..u64::MAX)
        .find_map(|_| compare_some(a, b))
        .unwrap_or(false)
}

// Runs the code on an open file, onto the file `out`; whether it came to its end, by conforming or by
// refusing the file.
fn runs<R: Files + Eprint>(rt: &R, input: &mut R::File) -> bool {
    match fs::create(rt, "out") {
        Ok(mut out) => matches!(
            conforming::run(rt, input, &mut out),
            Ok(()) | Err(Stopped::Refused(_))
        ),
        Err(_) => false,
    }
}

// Whether the file `out`, opened anew, has the bytes of another.
fn is_written<R: Files>(rt: &R, want: &mut R::File) -> bool {
    match fs::open(rt, "out") {
        Ok(mut back) => same_files(&mut back, want),
        Err(_) => false,
    }
}

// Runs the code on a file and compares what it wrote with another. A file that could not be opened is
// none.
fn is_right<R: Files + Eprint>(rt: &R, input: Option<R::File>, want: Option<R::File>) -> bool {
    let Some(mut input) = input else {
        return false;
    };
    let Some(mut want) = want else {
        return false;
    };
    let whole = runs(rt, &mut input);
    let same = is_written(rt, &mut want);
    whole & same
}

// Argument i, put at the start of the bytes. None where it is missing or longer.
fn argument<'a>(rt: &impl Env, i: usize, bytes: &'a mut [u8]) -> Option<&'a [u8]>
    ensures { IfSome result (λ part. length part.now ≤ length bytes.old) }
{
    let k = rt.arg(i, bytes).ok()?;
    Some(&bytes[..k])
}

// The file of this name. None where there is no name, it is no text, or the file cannot be opened.
fn open<R: Files>(rt: &R, name: Option<&[u8]>) -> Option<R::File> {
    fs::open(rt, str::from_utf8(name?).ok()?).ok()
}

// The case of arguments i and i + 1; whether it failed.
fn fails<R: Files + Env + Print + Eprint>(rt: &R, i: usize) -> bool {
    let mut bytes = [0u8; 4096];
    let name = argument(rt, i, &mut bytes);
    let input = open(rt, name);
    let mut other = [0u8; 4096];
    let want = open(rt, argument(rt, i.wrapping_add(1), &mut other));
    let right = is_right(rt, input, want);
    if !right {
        let _ = rt.write_all(name.unwrap_or(b""));
        let _ = rt.write_all(b" gave something else\n");
    }
    !right
}

// How many of the cases fail.
fn count_wrong<R: Files + Env + Print + Eprint>(rt: &R, count: usize) -> usize {
    (1..count).step_by(2).filter(|i| fails(rt, *i)).count()
}

// How many arguments the program was started with, its own name among them.
fn argument_count(rt: &impl Env) -> usize {
    for i in 0..usize::MAX {
        if let Err(FillError::NotPresent) = rt.arg(i, &mut []) {
            return i;
        }
    }
    usize::MAX
}

fn main(rt: HostRuntime) {
    let count = argument_count(&rt);
    let wrong = count_wrong(&rt, count);
    let cases = count / 2;
    let _ = println!(rt; "{cases} cases, {wrong} wrong");
}
