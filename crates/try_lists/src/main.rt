// What is said of the lists that stand in its input, each under its title: how it is read, which forms take it and how
// many opcodes each skips, the same for a preview, and its note. The input is a length and the title, a length and the list, again and again;
// words are big-endian. compare/lists writes it.
#![tactic(auto)]

use dng::Malformed;
use list_survey::Survey;
use std::io;

fn number(rt: &HostRuntime, text: &[u8], n: usize) -> io::Result<()> {
    rt.write_all(text)?;
    rt.print(n)
}

fn print_reading(rt: &HostRuntime, r: Result<usize, Malformed>) -> io::Result<()> {
    match r {
        Ok(opcodes) => number(rt, b"0, opcodes ", opcodes),
        Err(m) => {
            number(rt, b"", run_answers::reason_number(m.why.reason) as usize)?;
            number(rt, b" at byte ", m.why.at)?;
            number(rt, b", after ", m.after)
        }
    }
}

fn print_taken(rt: &HostRuntime, text: &[u8], taken: bool) -> io::Result<()> {
    rt.write_all(text)?;
    rt.print(if taken { "yes" } else { "no" })
}

fn print_survey(rt: &HostRuntime, s: Survey) -> io::Result<()> {
    number(rt, b"; skipped ", s.skips)?;
    number(rt, b", ", s.skips16)?;
    print_taken(rt, b"; whole-number form ", s.takes16)?;
    print_taken(rt, b", row form ", s.takes_rows)?;
    rt.write_all(b"\n")
}

fn print_found(rt: &HostRuntime, list: &[u8]) -> io::Result<()> {
    let found = list_survey::read(list, false);
    let reading = found.reading;
    print_reading(rt, reading)?;
    let survey = found.survey;
    print_survey(rt, survey)
}

fn print_preview(rt: &HostRuntime, list: &[u8]) -> io::Result<()> {
    let found = list_survey::read(list, true);
    rt.write_all(b"a preview")?;
    let survey = found.survey;
    print_survey(rt, survey)
}

fn print_note(rt: &HostRuntime, list: &[u8]) -> io::Result<()> {
    let mut text = [0u8; 1024];
    let end = say_note::note(list, &mut text);
    rt.write_all(&text[..end])
}

fn print_list(rt: &HostRuntime, title: &[u8], list: &[u8]) -> io::Result<()> {
    rt.write_all(b"-- ")?;
    rt.write_all(title)?;
    rt.write_all(b"\n")?;
    print_found(rt, list)?;
    print_preview(rt, list)?;
    print_note(rt, list)
}

// One list; where the next one's title stands.
fn print_next(rt: &HostRuntime, s: &[u8], at: usize) -> io::Result<usize> {
    let title = try_call::span_at(s, at);
    let list = try_call::span_at(s, title.end);
    print_list(rt, &s[title.start..title.end], &s[list.start..list.end])?;
    Ok(list.end)
}

fn print_all(rt: &HostRuntime, s: &[u8]) -> io::Result<()> {
    let mut at = 0;
    // there are fewer lists than bytes
    for _ in s {
        if at < s.len() {
            at = print_next(rt, s, at)?;
        }
    }
    Ok(())
}

fn main(rt: HostRuntime) -> io::Result<()> {
    let mut input = [0u8; 327680];
    let n = say_stream::read_full(&mut rt.reader(), &mut input)?;
    print_all(&rt, &input[..n])
}
