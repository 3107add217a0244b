// The lists of the files that stand in its input, three lines for each. A file stands behind its length, a big-endian
// u32. compare/find wrote both the input and the lines that are expected, by a second reading of document 02.
#![tactic(auto)]

use std::io;

fn show(rt: &HostRuntime, file: &[u8]) -> io::Result<()> {
    let mut text = [0u8; 256];
    let n = say_found::lines(file, &mut text);
    rt.write_all(&text[..n])
}

fn show_all(rt: &HostRuntime, s: &[u8]) -> io::Result<()> {
    let mut rest = s;
    while !rest.is_empty() {
        let (length, behind) = rest.split_at(rest.len().min(4));
        let n = num_words::u32_at(length, 0) as usize;
        let (file, next) = behind.split_at(behind.len().min(n));
        show(rt, file)?;
        rest = next;
    }
    Ok(())
}

fn main(rt: HostRuntime) -> io::Result<()> {
    let mut input = [0u8; 262144];
    let n = say_stream::read_full(&mut rt.reader(), &mut input)?;
    show_all(&rt, &input[..n])
}
