// Small frames, mended: prints what `correct` would print, and the samples, which no test can see in the file that it
// writes. The input is a case after another, each of four parts with their lengths before them: a title, a list, a
// frame, and six words: 0 for a greymap and 1 for three raw f32; the period; how many entries there are for samples as
// f32, for marks and for names; and 1 for a preview, else 0. compare/frames writes it.
#![tactic(auto)]

ghost use Rattle.std.specs.Prelude.{◌≤◌};

use dng::{Answer, Settings, Window};
use run_stored::{Mended, NoRoom};
use say_pgm::Frame;
use say_report::Form;
use std::io;

fn print_answer(
    rt: &HostRuntime,
    a: Answer,
    form: Form,
    names: &[u8],
    held: usize,
    whole: bool,
) -> io::Result<()> {
    let mut text = [0u8; 512];
    let n = say_report::write(&mut text, a, form, names, held as u64, whole);
    rt.write_all(&text[..n])
}

fn print_mended(
    rt: &HostRuntime,
    m: Result<Mended, NoRoom>,
    names: &[u8; 8],
    maxval: usize,
    over: usize,
    whole: bool,
) -> io::Result<()> {
    match m {
        Ok(Mended::Whole { answer }) => print_answer(
            rt,
            answer,
            Form::Whole,
            names,
            run_stored::held_above(maxval, 0, over),
            whole,
        ),
        Ok(Mended::Widened { answer, held }) => print_answer(
            rt,
            answer,
            Form::Rounded,
            names,
            run_stored::held_above(maxval, held, over),
            whole,
        ),
        Err(why) => rt.println(why),
    }
}

fn print_number(rt: &HostRuntime, n: u16) -> io::Result<()> {
    rt.write_all(b" ")?;
    rt.print(n)
}

fn print_samples(rt: &HostRuntime, samples: &[u16]) -> io::Result<()> {
    rt.write_all(b"samples")?;
    for v in samples {
        print_number(rt, *v)?;
    }
    rt.write_all(b"\n")
}

fn print_bytes(rt: &HostRuntime, bytes: &[u8]) -> io::Result<()> {
    rt.write_all(b"raster")?;
    for b in bytes {
        print_number(rt, u16::from(*b))?;
    }
    rt.write_all(b"\n")
}

fn window_of(width: usize, height: usize) -> Window {
    Window {
        width,
        height,
        planes: 1,
        stride: width,
        x0: 0,
        y0: 0,
        full_width: width,
        full_height: height,
    }
}

// A side of a frame, which is at most 65,536; the run refuses one that is longer.
fn side(n: usize) -> u32 {
    if n <= 65536 { n as u32 } else { 65537 }
}

fn whole_mended(list: &[u8], f: Frame, preview: bool, m: Result<Mended, NoRoom>) -> bool {
    run_stored::is_whole(list, side(f.width), side(f.height), preview, m)
}

fn whole_run(list: &[u8], width: usize, height: usize, preview: bool, a: Answer) -> bool {
    let n = run_answers::numbers(a);
    run_verdict::whole_frame(list, side(width), side(height), preview, n.number)
}

// ---- the numbers of a case

#[derive(Clone, Copy)]
struct Setup {
    kind: u32,
    period: usize,
    wide: usize,
    marks: usize,
    names: usize,
    preview: bool,
}

fn held(n: u32, most: usize) -> usize
    ensures { result ≤ most }
{
    (n as usize).min(most)
}

fn setup_of(words: &[u8]) -> Setup
    ensures { (result.wide ≤ 4) × ((result.marks ≤ 8) × (result.names ≤ 8)) }
{
    let period = num_words::u32_at(words, 4) as usize;
    let wide = held(num_words::u32_at(words, 8), 4);
    let marks = held(num_words::u32_at(words, 12), 8);
    let names = held(num_words::u32_at(words, 16), 8);
    Setup {
        kind: num_words::u32_at(words, 0),
        period,
        wide,
        marks,
        names,
        preview: num_words::u32_at(words, 20) == 1,
    }
}

// ---- a greymap of at most four samples

fn mend_raster(
    rt: &HostRuntime,
    list: &[u8],
    f: Frame,
    raster: &mut [u8],
    samples: &mut [u16],
    t: Setup,
) -> io::Result<()>
    requires { (t.wide ≤ 4) × ((t.marks ≤ 8) × (t.names ≤ 8)) }
{
    say_pgm::decode(raster, f.maxval, &mut *samples);
    let mut wide = [0.0f32; 4];
    let mut marks = [0u32; 8];
    let mut names = [0u8; 8];
    let w = window_of(f.width, f.height);
    let m = run_stored::mend(
        list,
        &mut *samples,
        &mut wide[..t.wide],
        w,
        t.period,
        t.preview,
        &mut marks[..t.marks],
        &mut names[..t.names],
    );
    let over = say_pgm::encode(samples, f.maxval, &mut *raster);
    let whole = whole_mended(list, f, t.preview, m);
    print_mended(rt, m, &names, f.maxval, over, whole)?;
    print_samples(rt, samples)?;
    print_bytes(rt, raster)
}

fn mend_file(
    rt: &HostRuntime,
    list: &[u8],
    file: &mut [u8],
    samples: &mut [u16],
    t: Setup,
) -> io::Result<()>
    requires { (t.wide ≤ 4) × ((t.marks ≤ 8) × (t.names ≤ 8)) }
{
    match say_pgm::read_frame(file, samples.len()) {
        Ok(f) => {
            let Some(raster) = file.get_mut(f.at..f.end) else {
                return Ok(());
            };
            let Some(part) = samples.get_mut(..f.samples) else {
                return Ok(());
            };
            mend_raster(rt, list, f, raster, part, t)
        }
        Err(why) => {
            rt.write_all(b"FRAME: ")?;
            rt.println(why)
        }
    }
}

// ---- a raw frame of at most three f32

fn run_raw(
    rt: &HostRuntime,
    list: &[u8],
    raster: &mut [u8],
    samples: &mut [f32],
    preview: bool,
) -> io::Result<()> {
    say_pgm::decode_f32(raster, &mut *samples);
    let mut marks = [0u32; 8];
    let mut names = [0u8; 8];
    let w = window_of(3, 1);
    let set = Settings {
        period: 1,
        scale: 1.0,
        preview,
    };
    let a = run_window::run(list, &mut *samples, w, set, &mut marks, &mut names);
    let whole = whole_run(list, 3, 1, preview, a);
    print_answer(rt, a, Form::Float, &names, 0, whole)?;
    say_pgm::encode_f32(samples, &mut *raster);
    print_bytes(rt, raster)
}

// ---- a case

// The frame is copied, since the list stands in the same input.
fn show(rt: &HostRuntime, list: &[u8], frame: &[u8], words: &[u8]) -> io::Result<()> {
    let t = setup_of(words);
    let n = frame.len();
    if 64 < n {
        return Ok(());
    }
    let mut file = [0u8; 64];
    let mut samples = [0u16; 4];
    let mut floats = [0.0f32; 3];
    file[..n].copy_from_slice(frame);
    if t.kind == 0 {
        return mend_file(rt, list, &mut file[..n], &mut samples, t);
    }
    if n == 12 {
        return run_raw(rt, list, &mut file[..n], &mut floats, t.preview);
    }
    Ok(())
}

// One case; where the next one's title stands.
fn show_next(rt: &HostRuntime, s: &[u8], at: usize) -> io::Result<usize> {
    let title = try_call::span_at(s, at);
    let list = try_call::span_at(s, title.end);
    let frame = try_call::span_at(s, list.end);
    let words = try_call::span_at(s, frame.end);
    say_stream::say(rt, &s[title.start..title.end])?;
    show(
        rt,
        &s[list.start..list.end],
        &s[frame.start..frame.end],
        &s[words.start..words.end],
    )?;
    Ok(words.end)
}

fn show_all(rt: &HostRuntime, s: &[u8]) -> io::Result<()> {
    let mut at = 0;
    // there are fewer cases than bytes
    for _ in s {
        if at < s.len() {
            at = show_next(rt, s, at)?;
        }
    }
    Ok(())
}

fn main(rt: HostRuntime) -> io::Result<()> {
    let mut input = [0u8; 16384];
    let n = say_stream::read_full(&mut rt.reader(), &mut input)?;
    show_all(&rt, &input[..n])
}
