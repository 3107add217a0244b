// Reads the bytes of a list from standard input and prints its note: document 01, 'Notes program'. The buffer has room
// for one byte more than a list may have, so that a list that is too long is seen.
#![tactic(auto)]

use std::io;

fn main(rt: HostRuntime) -> io::Result<()> {
    let mut input = [0u8; 65536];
    let n = say_stream::read_full(&mut rt.reader(), &mut input)?;
    let mut text = [0u8; 1024];
    let end = say_note::note(&input[..n], &mut text);
    rt.write_all(&text[..end])
}
