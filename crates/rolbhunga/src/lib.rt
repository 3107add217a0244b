// What C and Rust call. Every function answers for every argument; include/rolbhunga.h says it in C's words.
// The forms over bytes are lent typed room beside them, since samples are typed inside: too little of it is an answer
// of its own.
#![tactic(auto)]

pub mod black;
pub mod find;

ghost use Rattle.std.specs.Prelude.{◌≡◌, cond, ◌*◌, ◌/◌, ◌≤◌, length, replicate};
ghost use Rattle.std.specs.Float.{nan, binary32};
ghost use Rattle.std.specs.Float.Ieee.{to_bits};
ghost use Rattle.dng.specs.List.{reading_of};
ghost use Rattle.dng.specs.Value.{nought};
ghost use Rattle.dng.specs.Answer.{reading_numbers_of, row_out, f32_out, u16_out, frame_of, run_out};
ghost use Rattle.sample.specs.Kinds.{kind_of};
ghost use Rattle.run_bytes.specs.Samples.{
  float_at,
  whole_at,
  floats_in,
  wholes_in,
  decoded,
  encoded,
};
ghost use Rattle.run_verdict.specs.Verdict.{whole_frame};
ghost use Rattle.rolbhunga.specs.Calls.{
  row_numbers_for,
  row_done,
  RowTold,
  RowLeft,
  RowBytes,
  reached,
  short,
  Told,
  Left,
  Bytes,
};

use dng::{Answer, Numbers, Refusal, RowAnswer, RowWindow, Settings, Window};
use run_bytes::InBytes;
use run_opcodes::WindowStep;
use run_refuse::Form;

// What a row call answers: the papers' number, the entries read whole before a malformed one, the byte at which that
// one was refused, and how many opcodes of the list the f32 run names.
#[repr(C)]
#[derive(Clone, Copy)]
pub struct RowNumbers {
    pub number: u32,
    pub entry: usize,
    pub offset: usize,
    pub skipped: usize,
}

// ---- reading

pub fn rolbhunga_read(list: &[u8]) -> Numbers
    ensures { result ≡ reading_numbers_of (reading_of list.now) }
{
    run_answers::reading_numbers(list_read::read(list))
}

// ---- a row

fn malformed_row(entry: usize, why: Refusal) -> RowNumbers
    ensures { result ≡ row_numbers_for (RowAnswer.Malformed entry why) }
{
    let reason = why.reason;
    RowNumbers {
        number: run_answers::reason_number(reason),
        entry: entry,
        offset: why.at,
        skipped: 0,
    }
}

fn row_numbers(a: RowAnswer) -> RowNumbers
    ensures { result ≡ row_numbers_for a }
{
    match a {
        RowAnswer::Done { skipped } => RowNumbers {
            number: 0,
            entry: 0,
            offset: 0,
            skipped: skipped,
        },
        RowAnswer::Range => RowNumbers {
            number: 1,
            entry: 0,
            offset: 0,
            skipped: 0,
        },
        RowAnswer::Malformed { entry, why } => malformed_row(entry, why),
        RowAnswer::NotTaken => RowNumbers {
            number: 3,
            entry: 0,
            offset: 0,
            skipped: 0,
        },
    }
}

pub fn rolbhunga_run_row(
    list: &[u8],
    row: &mut [f32],
    w: RowWindow,
    y: usize,
    scale: f32,
    preview: bool,
) -> RowNumbers
    ensures { RowTold (row_out w scale preview y list.now row.old) result row.new }
{
    row_numbers(run_row::run_row(list, row, w, y, scale, preview))
}

// ---- a row, its samples in bytes

// Back into the bytes, where a run changed the samples.
fn put<S: InBytes>(room: &[S], bytes: &mut [u8], ran: bool)
    requires { length room.now * S.SIZE ≤ length bytes.old }
    ensures { bytes.new
        ≡ cond ran (encoded S.SIZE S.bits S.none room.now bytes.old) bytes.old }
{
    if ran {
        run_bytes::encode(room, bytes);
    }
}

fn is_row_done(a: RowAnswer) -> bool
    ensures { result ≡ row_done a }
{
    matches!(a, RowAnswer::Done { .. })
}

// A row in bytes, with room for each of its samples and no more.
fn row_in(
    list: &[u8],
    bytes: &mut [u8],
    w: RowWindow,
    y: usize,
    scale: f32,
    preview: bool,
    room: &mut [f32],
) -> RowAnswer
    requires { length room.old * 4 ≤ length bytes.old }
    ensures { RowLeft
        (row_out w scale preview y list.now (decoded (float_at bytes.old) room.old))
        bytes.old result bytes.new }
{
    run_bytes::decode(bytes, &mut *room);
    let r = run_row::run_row(list, &mut *room, w, y, scale, preview);
    put(room, bytes, is_row_done(r));
    r
}

pub fn rolbhunga_bytes_row(
    list: &[u8],
    bytes: &mut [u8],
    w: RowWindow,
    y: usize,
    scale: f32,
    preview: bool,
    work: &mut [f32],
) -> RowNumbers
    ensures { RowBytes (row_out w scale preview y list.now (floats_in bytes.old)) bytes.old
        (length work.old)
        result bytes.new work.new }
{
    let n = bytes.len() / 4;
    if work.len() < n {
        run_bytes::clear(work);
        RowNumbers {
            number: 100,
            entry: 0,
            offset: 0,
            skipped: 0,
        }
    } else {
        let r = row_in(list, bytes, w, y, scale, preview, &mut work[..n]);
        run_bytes::clear(work);
        row_numbers(r)
    }
}

// ---- whole windows, typed

pub fn rolbhunga_run_f32(
    list: &[u8],
    samples: &mut [f32],
    w: Window,
    set: Settings,
    marks: &mut [u32],
    names: &mut [u8],
) -> Numbers
    ensures { Told (f32_out w set (record { marks = length marks.entry.now })
        list.now samples.old names.old)
        (record { marks = length marks.entry.now })
        result samples.new names.new marks.exit.now }
{
    run_answers::numbers(run_window::run(list, samples, w, set, marks, names))
}

pub fn rolbhunga_run_u16(
    list: &[u8],
    samples: &mut [u16],
    w: Window,
    period: usize,
    preview: bool,
    marks: &mut [u32],
    names: &mut [u8],
) -> Numbers
    ensures { Told (u16_out w period preview (record { marks = length marks.entry.now })
        list.now samples.old names.old)
        (record { marks = length marks.entry.now })
        result samples.new names.new marks.exit.now }
{
    let set = Settings {
        period,
        scale: 1.0,
        preview,
    };
    run_answers::numbers(run_window::run(list, samples, w, set, marks, names))
}

// Whether a frame is whole: its run answered `number`. A caller by rows asks once, with 0.
pub fn rolbhunga_whole(
    list: &[u8],
    full_width: u32,
    full_height: u32,
    preview: bool,
    number: u32,
) -> bool
    ensures { result ≡ whole_frame full_width full_height preview list.now number }
{
    run_verdict::whole_frame(list, full_width, full_height, preview, number)
}

// ---- whole windows, samples in bytes

// Whether a run came to the samples: done, or stopped on the way.
fn is_reached(a: Answer) -> bool
    ensures { result ≡ reached a }
{
    matches!(a, Answer::Done { .. } | Answer::Marks { .. })
}

// Too little work room: the scratch is cleared, as at every return.
fn refuse(marks: &mut [u32]) -> Numbers
    ensures { (result ≡ short) × (marks.new ≡ replicate (length marks.old) 0) }
{
    num_sorted::clear(marks);
    Numbers {
        number: 100,
        entry: 0,
        offset: 0,
        opcode: 0,
        names: 0,
        repaired: 0,
        left: 0,
    }
}

// The samples of the bytes, with room for each of them and no more.
fn run_in<S: Form + WindowStep + InBytes>(
    list: &[u8],
    bytes: &mut [u8],
    w: Window,
    set: Settings,
    room: &mut [S],
    marks: &mut [u32],
    names: &mut [u8],
) -> Answer
    requires { length room.old * S.SIZE ≤ length bytes.old }
    ensures { Left S.SIZE S.bits S.none
        (run_out (kind_of S.none S.to_float S.of_mean S.constant_at S.equals S.rule (frame_of w set.scale))
        S.takes S.skip w set.period set.preview (record { marks = length marks.old })
        list.now (decoded (S.at bytes.old) room.old) names.old)
        (record { marks = length marks.old })
        bytes.old result bytes.new names.new marks.new }
{
    run_bytes::decode(bytes, &mut *room);
    let r = run_window::run(list, &mut *room, w, set, marks, names);
    put(room, bytes, is_reached(r));
    r
}

// Each kind of sample by the same test of the work room.
fn told_in_bytes<S: Form + WindowStep + InBytes>(
    list: &[u8],
    bytes: &mut [u8],
    w: Window,
    set: Settings,
    work: &mut [S],
    marks: &mut [u32],
    names: &mut [u8],
) -> Numbers
    ensures { Bytes S.SIZE S.bits S.none S.ZERO
        (run_out (kind_of S.none S.to_float S.of_mean S.constant_at S.equals S.rule (frame_of w set.scale))
        S.takes S.skip w set.period set.preview (record { marks = length marks.old })
        list.now (decoded (S.at bytes.old) (replicate (length bytes.old / S.SIZE) S.ZERO)) names.old)
        (record { marks = length marks.old })
        bytes.old names.old (length work.old)
        result bytes.new names.new marks.new work.new }
{
    let n = bytes.len() / S::SIZE;
    if work.len() < n {
        run_bytes::clear(work);
        refuse(marks)
    } else {
        let r = run_in(list, bytes, w, set, &mut work[..n], marks, names);
        run_bytes::clear(work);
        run_answers::numbers(r)
    }
}

// A function for each kind of sample: the C interface.
pub fn rolbhunga_bytes_f32(
    list: &[u8],
    bytes: &mut [u8],
    w: Window,
    set: Settings,
    work: &mut [f32],
    marks: &mut [u32],
    names: &mut [u8],
) -> Numbers
    ensures { Bytes 4 (to_bits binary32) nan nought
        (f32_out w set (record { marks = length marks.entry.now })
        list.now (floats_in bytes.old) names.old)
        (record { marks = length marks.entry.now })
        bytes.old names.old (length work.old)
        result bytes.new names.new marks.exit.now work.new }
{
    told_in_bytes(list, bytes, w, set, work, marks, names)
}

// The same for u16, which has no scale.
pub fn rolbhunga_bytes_u16(
    list: &[u8],
    bytes: &mut [u8],
    w: Window,
    period: usize,
    preview: bool,
    work: &mut [u16],
    marks: &mut [u32],
    names: &mut [u8],
) -> Numbers
    ensures { Bytes 2 (λ n. n) 0 0
        (u16_out w period preview (record { marks = length marks.entry.now })
        list.now (wholes_in bytes.old) names.old)
        (record { marks = length marks.entry.now })
        bytes.old names.old (length work.old)
        result bytes.new names.new marks.exit.now work.new }
{
    let set = Settings {
        period,
        scale: 1.0,
        preview,
    };
    told_in_bytes(list, bytes, w, set, work, marks, names)
}
