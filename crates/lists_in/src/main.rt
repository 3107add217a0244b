// lists_in FILE [WHICH OUT]: where the opcode lists of the DNG file FILE lie, a line for each; with WHICH, 1 to 3,
// that list is written to OUT, and its line is printed. OUT is written under another name first, so that it is never
// half written; on a refusal nothing is written.
#![tactic(auto)]

use list_find::{FindError, Place, Which};
use std::io;

// ---- the arguments

fn which_of(text: &[u8]) -> Option<Which> {
    match text {
        [b'1'] => Some(Which::List1),
        [b'2'] => Some(Which::List2),
        [b'3'] => Some(Which::List3),
        _ => None,
    }
}

// The list asked for, or all of them; none of both where the arguments are not in order.
fn wanted(rt: &HostRuntime) -> Option<Option<Which>> {
    match say_stream::arg_count(rt) {
        2 => Some(None),
        4 => {
            let mut text = [0u8; 16];
            let n = say_stream::arg(rt, 2, &mut text);
            Some(Some(which_of(&text[..n])?))
        }
        _ => None,
    }
}

// ---- the lists

fn print_line(rt: &HostRuntime, which: Which, found: Result<Place, FindError>) -> io::Result<()> {
    let mut text = [0u8; 256];
    let n = say_found::line(which, found, &mut text);
    rt.write_all(&text[..n])
}

fn print_lines(rt: &HostRuntime, file: &[u8]) -> io::Result<()> {
    let mut text = [0u8; 256];
    let n = say_found::lines(file, &mut text);
    rt.write_all(&text[..n])
}

// The list is written first, so that its line is printed of a list that is there.
fn extract(rt: &HostRuntime, file: &[u8], which: Which) -> io::Result<()> {
    let found = list_find::find(file, which);
    if let Ok(place) = found {
        let list = list_find::part(file, place.start, place.len);
        if !say_stream::write_arg(rt, 3, b"", list)? {
            return Ok(());
        }
    }
    print_line(rt, which, found)
}

fn run(rt: &HostRuntime, list: Option<Which>, file: &mut [u8]) -> io::Result<()> {
    let Some(n) = say_stream::read_arg(rt, 1, &mut *file)? else {
        return Ok(());
    };
    match list {
        None => print_lines(rt, &file[..n]),
        Some(which) => extract(rt, &file[..n], which),
    }
}

// The large buffer goes on as a slice from here.
fn run_in(rt: &HostRuntime, list: Option<Which>, file: &mut [u8; 7340032]) -> io::Result<()> {
    run(rt, list, file)
}

// The room for the file is here: seven of the eight megabytes of a default stack, so that a file has at most 7,340,031
// bytes.
fn main(rt: HostRuntime) -> io::Result<()> {
    let Some(list) = wanted(&rt) else {
        return say_stream::say(&rt, b"lists_in FILE [WHICH OUT]");
    };
    let mut file = [0u8; 7340032];
    run_in(&rt, list, &mut file)
}
