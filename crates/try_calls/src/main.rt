// Runs the calls that stand in its input and prints what each of them answers and leaves, a line for each. The
// comparison with the Rust wrote both the input and the lines that are expected: compare/run SOURCE frames FOLDER.
#![tactic(auto)]

ghost use Rattle.std.specs.Prelude.{◌≤◌, length};
ghost use Rattle.try_call.specs.Calls.{Sound};

use dng::{Numbers, RowWindow, Settings, Window};
use std::io;
use try_call::Call;

// ---- a line

fn print_number(rt: &HostRuntime, n: u64) -> io::Result<()> {
    rt.write_all(b" ")?;
    rt.print(n)
}

fn print_bytes(rt: &HostRuntime, bytes: &[u8]) -> io::Result<()>
    requires { length bytes.now ≤ 256 }
{
    let mut text = [0u8; 512];
    let n = try_call::put_hex(bytes, &mut text);
    rt.write_all(&text[0..n])
}

// Nothing is a `-`, so that every line has its ten words.
fn print_field(rt: &HostRuntime, bytes: &[u8]) -> io::Result<()>
    requires { length bytes.now ≤ 256 }
{
    rt.write_all(b" ")?;
    if bytes.len() == 0 {
        rt.write_all(b"-")
    } else {
        print_bytes(rt, bytes)
    }
}

fn print_numbers(rt: &HostRuntime, form: u32, n: Numbers) -> io::Result<()> {
    rt.print(form)?;
    print_number(rt, n.number as u64)?;
    print_number(rt, n.entry as u64)?;
    print_number(rt, n.offset as u64)?;
    print_number(rt, n.opcode as u64)?;
    print_number(rt, n.names as u64)?;
    print_number(rt, n.repaired)?;
    print_number(rt, n.left)
}

// ---- a call

fn is_preview(c: Call) -> bool {
    Call::PREVIEW <= c.form
}

fn run_f32(list: &[u8], bytes: &mut [u8], c: Call, names: &mut [u8]) -> Numbers
    requires { c.marks ≤ 64 }
{
    let mut work = [0.0f32; 64];
    let mut marks = [0u32; 64];
    let m = c.marks;
    let w = c.window;
    let set = Settings {
        period: c.period,
        scale: c.scale,
        preview: is_preview(c),
    };
    rolbhunga::rolbhunga_bytes_f32(list, bytes, w, set, &mut work, &mut marks[0..m], names)
}

fn run_u16(list: &[u8], bytes: &mut [u8], c: Call, names: &mut [u8]) -> Numbers
    requires { c.marks ≤ 64 }
{
    let mut work = [0u16; 128];
    let mut marks = [0u32; 64];
    let m = c.marks;
    let w = c.window;
    rolbhunga::rolbhunga_bytes_u16(
        list,
        bytes,
        w,
        c.period,
        is_preview(c),
        &mut work,
        &mut marks[0..m],
        names,
    )
}

fn row_window(w: Window) -> RowWindow {
    RowWindow {
        width: w.width,
        planes: w.planes,
        x0: w.x0,
        full_width: w.full_width,
        full_height: w.full_height,
    }
}

// A row names nothing: in its line the count of skipped opcodes stands for the names.
fn run_row(list: &[u8], bytes: &mut [u8], c: Call) -> Numbers {
    let mut work = [0.0f32; 64];
    let w = row_window(c.window);
    let preview = is_preview(c);
    let r = rolbhunga::rolbhunga_bytes_row(list, bytes, w, c.y, c.scale, preview, &mut work);
    Numbers {
        number: r.number,
        entry: r.entry,
        offset: r.offset,
        opcode: 0,
        names: r.skipped,
        repaired: 0,
        left: 0,
    }
}

fn run(list: &[u8], bytes: &mut [u8], c: Call, names: &mut [u8]) -> Numbers
    requires { c.marks ≤ 64 }
{
    let form = c.form % Call::PREVIEW;
    match form {
        Call::READ => rolbhunga::rolbhunga_read(list),
        Call::F32 => run_f32(list, bytes, c, names),
        Call::U16 => run_u16(list, bytes, c, names),
        _ => run_row(list, bytes, c),
    }
}

// The line of a call: what it answers, and what it leaves in the names and in the samples.
fn answer(
    rt: &HostRuntime,
    list: &[u8],
    bytes: &mut [u8],
    c: Call,
    names: &mut [u8],
) -> io::Result<()>
    requires marks_bound { c.marks ≤ 64 }
    requires bytes_len_bound { (length bytes.old ≤ 256) × (length names.old ≤ 64) }
{
    let r = run(list, &mut *bytes, c, &mut *names);
    print_numbers(rt, c.form, r)?;
    print_field(rt, names)?;
    print_field(rt, bytes)?;
    rt.write_all(b"\n")
}

// The samples are copied, since the list stands in the same input.
fn show(rt: &HostRuntime, s: &[u8], c: Call) -> io::Result<()>
    requires { Sound s.now c }
{
    let mut bytes = [0u8; 256];
    let mut names = [0xeeu8; 64];
    let list = c.list;
    let p = c.samples;
    let n = p.end - p.start;
    try_call::copy(&s[p.start..p.end], &mut bytes);
    answer(
        rt,
        &s[list.start..list.end],
        &mut bytes[..n],
        c,
        &mut names[..c.names],
    )
}

// Whether the input was as many calls as its first word says, and nothing else.
fn show_all(rt: &HostRuntime, s: &[u8]) -> io::Result<bool> {
    let count = num_words::u32_at(s, 0);
    let mut at = 4;
    for _ in 0..count {
        let Some(call) = try_call::call_at(s, at) else {
            return Ok(false);
        };
        show(rt, s, call)?;
        at = call.samples.end;
    }
    Ok(at == s.len())
}

fn main(rt: HostRuntime) -> io::Result<()> {
    let mut input = [0u8; 262144];
    let n = say_stream::read_full(&mut rt.reader(), &mut input)?;
    if !show_all(&rt, &input[..n])? {
        rt.write_all(b"broken input\n")?;
    }
    Ok(())
}
