// A frame of whole numbers, mended by a list: by the whole-number run where the list is one for it, otherwise as f32 at
// scale 1, rounded back.
#![tactic(auto)]

ghost use Rattle.std.specs.Prelude.{◌≡◌, ◌≤◌, length};
ghost use Rattle.dng.specs.Answer.{f32_out};
ghost use Rattle.law_wholes.specs.WholeForm.{widened, narrowed, at_one};
ghost use Rattle.run_stored.specs.Mend.{not_taken, numbers_of, whole_mended, held_in, mend_out, Rounded, Mends, MendsClear, HeldAbove};

use dng::{Answer, Numbers, Settings, Window};
use std::fmt;

// What mending answers.
#[derive(Clone, Copy)]
pub enum Mended {
    // by the whole-number run, which takes the list or refuses it for another reason
    Whole { answer: Answer },
    // by the f32 run; `held` samples were above 65535 when they were rounded back
    Widened { answer: Answer, held: usize },
}

// The whole-number run does not take the list, and there is no room for the samples as f32.
#[derive(Clone, Copy)]
pub struct NoRoom;

impl NoRoom {
    pub const NUMBER: u32 = 80;
}

impl fmt::Display for NoRoom {
    fn fmt<W: fmt::Write>(&self, f: &mut fmt::Formatter<W>) -> fmt::Result {
        f.write_str("80: no room for the samples as f32")
    }
}

// Samples as f32.
fn widen(samples: &[u16], wide: &mut [f32])
    requires { length wide.old ≡ length samples.now }
    ensures { wide.new ≡ widened samples.now }
{
    for i in 0..samples.len() {
        wide[i] = num_convert::f32_of_u16(samples[i]);
    }
}

// And back: rounded to whole, half away from zero, and held to 0..65535.
fn narrow(wide: &[f32], samples: &mut [u16])
    requires { length samples.old ≡ length wide.now }
    ensures { samples.new ≡ narrowed wide.now }
{
    for i in 0..wide.len() {
        samples[i] = num_round::round_u16(wide[i]);
    }
}

// How many of them are above 65535 once rounded.
fn held(wide: &[f32]) -> usize
    ensures { result ≡ held_in wide.now }
{
    wide.iter()
        .filter(|v| num_round::round_held(**v, 65536) == 65536)
        .count()
}

// What the f32 run answers, and how many samples were held when they were rounded back.
#[derive(Clone, Copy)]
struct Rounding {
    answer: Answer,
    held: usize,
}

// The f32 run on whole samples, with room for just as many as f32.
fn run_wide(
    list: &[u8],
    samples: &mut [u16],
    wide: &mut [f32],
    w: Window,
    period: usize,
    preview: bool,
    marks: &mut [u32],
    names: &mut [u8],
) -> Rounding
    requires { length wide.old ≡ length samples.old }
    ensures { Rounded (f32_out w (at_one period preview) (record { marks = length marks.old })
        list.now (widened samples.old) names.old)
        (record { marks = length marks.old })
        result.answer result.held samples.new names.new marks.new }
{
    widen(samples, &mut *wide);
    let set = Settings {
        period,
        scale: 1.0,
        preview,
    };
    let answer = run_window::run(list, &mut *wide, w, set, marks, names);
    let over = held(wide);
    narrow(wide, samples);
    Rounding { answer, held: over }
}

fn is_not_taken(a: Answer) -> bool
    ensures { result ≡ not_taken a }
{
    matches!(a, Answer::NotTaken)
}

// Both runs in turn; what `wide` holds then is not said.
fn attempt(
    list: &[u8],
    samples: &mut [u16],
    wide: &mut [f32],
    w: Window,
    period: usize,
    preview: bool,
    marks: &mut [u32],
    names: &mut [u8],
) -> Result<Mended, NoRoom>
    ensures { Mends (mend_out w period preview (record { marks = length marks.old }) (length wide.old)
        list.now samples.old names.old)
        (record { marks = length marks.old })
        result samples.new names.new marks.new }
{
    let set = Settings {
        period,
        scale: 1.0,
        preview,
    };
    let a = run_window::run(list, &mut *samples, w, set, &mut *marks, &mut *names);
    if is_not_taken(a) {
        let n = samples.len();
        if n <= wide.len() {
            let part = &mut wide[0..n];
            let r = run_wide(list, samples, part, w, period, preview, marks, names);
            let answer = r.answer;
            let over = r.held;
            Ok(Mended::Widened { answer, held: over })
        } else {
            Err(NoRoom)
        }
    } else {
        Ok(Mended::Whole { answer: a })
    }
}

// Mends a frame. `wide` is room for the samples as f32; it and the scratch hold only zeros afterwards.
pub fn mend(
    list: &[u8],
    samples: &mut [u16],
    wide: &mut [f32],
    w: Window,
    period: usize,
    preview: bool,
    marks: &mut [u32],
    names: &mut [u8],
) -> Result<Mended, NoRoom>
    ensures { MendsClear (mend_out w period preview (record { marks = length marks.old })
        (length wide.old) list.now samples.old names.old)
        (record { marks = length marks.old }) (length wide.old)
        result samples.new wide.new names.new marks.new }
{
    let r = attempt(list, samples, &mut *wide, w, period, preview, marks, names);
    run_bytes::clear(wide);
    r
}

// The paper's number and values for what mending answers.
pub fn numbers(m: Result<Mended, NoRoom>) -> Numbers
    ensures { result ≡ numbers_of m }
{
    match m {
        Ok(Mended::Whole { answer }) => run_answers::numbers(answer),
        Ok(Mended::Widened { answer, held: _ }) => run_answers::numbers(answer),
        Err(NoRoom) => Numbers {
            number: NoRoom::NUMBER,
            entry: 0,
            offset: 0,
            opcode: 0,
            names: 0,
            repaired: 0,
            left: 0,
        },
    }
}

// The verdict: whether the frame that was mended is whole.
pub fn is_whole(
    list: &[u8],
    full_width: u32,
    full_height: u32,
    preview: bool,
    m: Result<Mended, NoRoom>,
) -> bool
    ensures { result ≡ whole_mended full_width full_height preview list.now m }
{
    let n = numbers(m);
    run_verdict::whole_frame(list, full_width, full_height, preview, n.number)
}

// How many samples of a result are above maxval: `wide` of them were held to 65535 as they were rounded back, `over` of
// the u16 samples were held to maxval as they were encoded. A sample that was held to 65535 is above any smaller
// maxval, so the encoder has it too; at 65535 the encoder counts none.
pub fn held_above(maxval: usize, wide: usize, over: usize) -> usize
    ensures { HeldAbove maxval wide over result }
{
    if maxval < 65535 { over } else { wide }
}
