// correct [--period N] [--preview] [--f32 WIDTH HEIGHT] LIST FRAME OUT: runs the opcode list LIST on FRAME and writes
// the result to OUT. FRAME is a binary greymap (PGM, P5) or, where a size is given, raw little-endian f32, which are
// run at scale 1. The window is the whole frame, at 0, 0. A preview leaves out the opcodes whose flag says that it may.
// OUT is written under another name first, so that it is never half written. What is printed ends with the verdict;
// what was skipped and the positions that stay unrepaired are facts of their own, above it.
#![tactic(auto)]

ghost use Rattle.std.specs.Prelude.{◌≤◌};

use dng::{Answer, Settings, Window};
use run_stored::{Mended, NoRoom};
use say_pgm::{Frame, FrameError};
use say_report::Form;
use std::io;

// ---- the arguments

#[derive(Clone, Copy)]
struct Size {
    width: usize,
    height: usize,
}

// The period, whether this is a preview, the size of a raw f32 frame if one is given, and which argument LIST is.
#[derive(Clone, Copy)]
struct Options {
    period: usize,
    preview: bool,
    raw: Option<Size>,
    first: usize,
}

fn is_arg(rt: &HostRuntime, i: usize, word: &[u8]) -> bool {
    let mut text = [0u8; 16];
    let n = say_stream::arg(rt, i, &mut text);
    &text[..n] == word
}

// A number from 0 to 65,536; 65,537 where the argument is none.
fn number_arg(rt: &HostRuntime, i: usize) -> usize {
    let mut text = [0u8; 16];
    let n = say_stream::arg(rt, i, &mut text);
    say_pgm::read_number(&text[..n]).unwrap_or(65537)
}

fn period_option(rt: &HostRuntime) -> Options
    ensures { result.first ≤ 3 }
{
    let none = Options {
        period: 1,
        preview: false,
        raw: None,
        first: 1,
    };
    if is_arg(rt, 1, b"--period") {
        Options {
            period: number_arg(rt, 2),
            first: 3,
            ..none
        }
    } else {
        none
    }
}

fn preview_option(rt: &HostRuntime, o: Options) -> Options
    requires { o.first ≤ 3 }
    ensures { result.first ≤ 4 }
{
    if is_arg(rt, o.first, b"--preview") {
        Options {
            preview: true,
            first: o.first + 1,
            ..o
        }
    } else {
        o
    }
}

fn raw_option(rt: &HostRuntime, o: Options) -> Options
    requires { o.first ≤ 4 }
    ensures { result.first ≤ 7 }
{
    if is_arg(rt, o.first, b"--f32") {
        let size = Size {
            width: number_arg(rt, o.first + 1),
            height: number_arg(rt, o.first + 2),
        };
        Options {
            raw: Some(size),
            first: o.first + 3,
            ..o
        }
    } else {
        o
    }
}

fn is_small(s: Size) -> bool {
    (s.width <= 65536) & (s.height <= 65536)
}

fn is_in_order(rt: &HostRuntime, o: Options) -> bool
    requires { o.first ≤ 7 }
{
    say_stream::arg_count(rt) == o.first + 3 && o.period <= 65536 && o.raw.is_none_or(is_small)
}

// ---- files

fn write_pgm(rt: &HostRuntime, i: usize, f: Frame, raster: &[u8]) -> io::Result<bool> {
    let mut head = [0u8; 66];
    let n = say_pgm::write_header(&mut head, f.width, f.height, f.maxval);
    say_stream::write_arg(rt, i, head.get(..n).unwrap_or(&head), raster)
}

// ---- a frame

fn is_done(a: Answer) -> bool {
    matches!(a, Answer::Done { .. })
}

fn print_answer(
    rt: &HostRuntime,
    a: Answer,
    form: Form,
    names: &[u8],
    held: usize,
    whole: bool,
) -> io::Result<()> {
    let mut text = [0u8; 512];
    let n = say_report::write(&mut text, a, form, names, held as u64, whole);
    rt.write_all(&text[..n])
}

fn print_error(rt: &HostRuntime, why: FrameError) -> io::Result<()> {
    rt.write_all(b"FRAME: ")?;
    rt.println(why)
}

// The whole frame, at 0, 0.
fn window_of(width: usize, height: usize) -> Window {
    Window {
        width,
        height,
        planes: 1,
        stride: width,
        x0: 0,
        y0: 0,
        full_width: width,
        full_height: height,
    }
}

// A side of a frame, which is at most 65,536; the run refuses one that is longer.
fn side(n: usize) -> u32 {
    if n <= 65536 { n as u32 } else { 65537 }
}

fn whole_mended(list: &[u8], f: Frame, preview: bool, m: Result<Mended, NoRoom>) -> bool {
    run_stored::is_whole(list, side(f.width), side(f.height), preview, m)
}

fn whole_run(list: &[u8], s: Size, preview: bool, a: Answer) -> bool {
    let n = run_answers::numbers(a);
    run_verdict::whole_frame(list, side(s.width), side(s.height), preview, n.number)
}

// A refusal is printed and nothing is written; otherwise the frame is, and then the answer with the verdict.
fn finish(
    rt: &HostRuntime,
    out: usize,
    a: Answer,
    form: Form,
    names: &[u8],
    wide_held: usize,
    whole: bool,
    samples: &[u16],
    f: Frame,
    raster: &mut [u8],
) -> io::Result<()> {
    if is_done(a) {
        let over = say_pgm::encode(samples, f.maxval, &mut *raster);
        if write_pgm(rt, out, f, raster)? {
            let held = run_stored::held_above(f.maxval, wide_held, over);
            print_answer(rt, a, form, names, held, whole)?;
        }
        Ok(())
    } else {
        print_answer(rt, a, form, names, 0, whole)
    }
}

// The raster's samples, mended, and back.
fn mend_raster(
    rt: &HostRuntime,
    o: Options,
    list: &[u8],
    f: Frame,
    raster: &mut [u8],
    samples: &mut [u16],
    wide: &mut [f32],
    marks: &mut [u32],
) -> io::Result<()>
    requires { o.first ≤ 7 }
{
    say_pgm::decode(raster, f.maxval, &mut *samples);
    let w = window_of(f.width, f.height);
    let mut names = [0u8; 4096];
    let m = run_stored::mend(
        list,
        &mut *samples,
        wide,
        w,
        o.period,
        o.preview,
        marks,
        &mut names,
    );
    let whole = whole_mended(list, f, o.preview, m);
    let out = o.first + 2;
    match m {
        Ok(Mended::Whole { answer }) => finish(
            rt,
            out,
            answer,
            Form::Whole,
            &names,
            0,
            whole,
            samples,
            f,
            raster,
        ),
        Ok(Mended::Widened { answer, held }) => finish(
            rt,
            out,
            answer,
            Form::Rounded,
            &names,
            held,
            whole,
            samples,
            f,
            raster,
        ),
        Err(why) => rt.println(why),
    }
}

// A frame in a file of n bytes.
fn mend_file(
    rt: &HostRuntime,
    o: Options,
    list: &[u8],
    n: usize,
    file: &mut [u8],
    samples: &mut [u16],
    wide: &mut [f32],
    marks: &mut [u32],
) -> io::Result<()>
    requires { o.first ≤ 7 }
{
    match say_pgm::read_frame(file.get(..n).unwrap_or(&*file), samples.len()) {
        Ok(f) => {
            let Some(raster) = file.get_mut(f.at..f.end) else {
                return Ok(());
            };
            let Some(part) = samples.get_mut(..f.samples) else {
                return Ok(());
            };
            mend_raster(rt, o, list, f, raster, part, wide, marks)
        }
        Err(why) => print_error(rt, why),
    }
}

// ---- a raw frame of f32

fn finish_raw(
    rt: &HostRuntime,
    out: usize,
    a: Answer,
    names: &[u8],
    whole: bool,
    samples: &[f32],
    raster: &mut [u8],
) -> io::Result<()> {
    if is_done(a) {
        say_pgm::encode_f32(samples, &mut *raster);
        if say_stream::write_arg(rt, out, b"", raster)? {
            print_answer(rt, a, Form::Float, names, 0, whole)?;
        }
        Ok(())
    } else {
        print_answer(rt, a, Form::Float, names, 0, whole)
    }
}

fn run_raw(
    rt: &HostRuntime,
    o: Options,
    list: &[u8],
    s: Size,
    raster: &mut [u8],
    samples: &mut [f32],
    marks: &mut [u32],
) -> io::Result<()>
    requires { o.first ≤ 7 }
{
    say_pgm::decode_f32(raster, &mut *samples);
    let mut names = [0u8; 4096];
    let w = window_of(s.width, s.height);
    let set = Settings {
        period: o.period,
        scale: 1.0,
        preview: o.preview,
    };
    let a = run_window::run(list, &mut *samples, w, set, marks, &mut names);
    let whole = whole_run(list, s, o.preview, a);
    finish_raw(rt, o.first + 2, a, &names, whole, samples, raster)
}

fn run_raw_file(
    rt: &HostRuntime,
    o: Options,
    list: &[u8],
    s: Size,
    n: usize,
    file: &mut [u8],
    samples: &mut [f32],
    marks: &mut [u32],
) -> io::Result<()>
    requires { o.first ≤ 7 }
{
    let count = say_pgm::area(s.width, s.height);
    if 524288 < count {
        return print_error(rt, FrameError::TooLarge);
    }
    let bytes = 4 * count;
    if n != bytes {
        return say_stream::say(rt, b"FRAME: its length is not that of WIDTH by HEIGHT f32");
    }
    let Some(raster) = file.get_mut(..bytes) else {
        return Ok(());
    };
    let Some(part) = samples.get_mut(..count) else {
        return Ok(());
    };
    run_raw(rt, o, list, s, raster, part, marks)
}

// ---- the files

fn mend_args(
    rt: &HostRuntime,
    o: Options,
    list: &mut [u8],
    file: &mut [u8],
    samples: &mut [u16],
    wide: &mut [f32],
    marks: &mut [u32],
) -> io::Result<()>
    requires { o.first ≤ 7 }
{
    let Some(long) = say_stream::read_arg(rt, o.first, &mut *list)? else {
        return Ok(());
    };
    let Some(n) = say_stream::read_arg(rt, o.first + 1, &mut *file)? else {
        return Ok(());
    };
    match o.raw {
        Some(s) => run_raw_file(rt, o, &list[..long], s, n, file, wide, marks),
        None => mend_file(rt, o, &list[..long], n, file, samples, wide, marks),
    }
}

// The large buffers go on as slices from here.
fn mend_in(
    rt: &HostRuntime,
    o: Options,
    list: &mut [u8; 262144],
    file: &mut [u8; 2101248],
    samples: &mut [u16; 524288],
    wide: &mut [f32; 524288],
    marks: &mut [u32; 131072],
) -> io::Result<()>
    requires { o.first ≤ 7 }
{
    mend_args(rt, o, list, file, samples, wide, marks)
}

// All room is here: six megabytes, which the default stack of eight holds. A list has at most 262,143 bytes, a frame
// at most 524,288 samples, a repair at most 131,072 positions.
fn main(rt: HostRuntime) -> io::Result<()> {
    let o = raw_option(&rt, preview_option(&rt, period_option(&rt)));
    if !is_in_order(&rt, o) {
        return say_stream::say(
            &rt,
            b"correct [--period N] [--preview] [--f32 WIDTH HEIGHT] LIST FRAME OUT",
        );
    }
    let mut list = [0u8; 262144];
    let mut file = [0u8; 2101248];
    let mut samples = [0u16; 524288];
    let mut wide = [0.0f32; 524288];
    let mut marks = [0u32; 131072];
    mend_in(
        &rt,
        o,
        &mut list,
        &mut file,
        &mut samples,
        &mut wide,
        &mut marks,
    )
}
