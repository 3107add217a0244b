// The exports for C: each calls the function of its name in rolbhunga, and promises what that one promises.
// include/rolbhunga.h says it in C's words.
#![tactic(auto)]

mod black;
mod find;

ghost use Rattle.std.specs.Prelude.{◌≡◌, cond, ◌*◌, ◌≤◌, length, replicate};
ghost use Rattle.std.specs.Float.{nan, binary32};
ghost use Rattle.std.specs.Float.Ieee.{to_bits};
ghost use Rattle.dng.specs.List.{reading_of};
ghost use Rattle.dng.specs.Value.{nought};
ghost use Rattle.dng.specs.Answer.{reading_numbers_of, row_out, f32_out, u16_out};
ghost use Rattle.run_bytes.specs.Samples.{
  float_at,
  whole_at,
  floats_in,
  wholes_in,
  decoded,
  encoded,
};
ghost use Rattle.run_verdict.specs.Verdict.{whole_frame};
ghost use Rattle.rolbhunga.specs.Calls.{
  row_numbers_for,
  row_done,
  RowTold,
  RowLeft,
  RowBytes,
  reached,
  short,
  Told,
  Left,
  Bytes,
};

use dng::{Answer, Numbers, Refusal, RowAnswer, RowWindow, Settings, Window};
use rolbhunga::RowNumbers;

#[unsafe(no_mangle)]
pub extern "C" fn rolbhunga_read(list: &[u8]) -> Numbers
    ensures { result ≡ reading_numbers_of (reading_of list.now) }
{
    rolbhunga::rolbhunga_read(list)
}

#[unsafe(no_mangle)]
pub extern "C" fn rolbhunga_run_row(
    list: &[u8],
    row: &mut [f32],
    w: RowWindow,
    y: usize,
    scale: f32,
    preview: bool,
) -> RowNumbers
    ensures { RowTold (row_out w scale preview y list.now row.old) result row.new }
{
    rolbhunga::rolbhunga_run_row(list, row, w, y, scale, preview)
}

#[unsafe(no_mangle)]
pub extern "C" fn rolbhunga_bytes_row(
    list: &[u8],
    bytes: &mut [u8],
    w: RowWindow,
    y: usize,
    scale: f32,
    preview: bool,
    work: &mut [f32],
) -> RowNumbers
    ensures { RowBytes (row_out w scale preview y list.now (floats_in bytes.old)) bytes.old
        (length work.old)
        result bytes.new work.new }
{
    rolbhunga::rolbhunga_bytes_row(list, bytes, w, y, scale, preview, work)
}

#[unsafe(no_mangle)]
pub extern "C" fn rolbhunga_run_f32(
    list: &[u8],
    samples: &mut [f32],
    w: Window,
    set: Settings,
    marks: &mut [u32],
    names: &mut [u8],
) -> Numbers
    ensures { Told (f32_out w set (record { marks = length marks.entry.now })
        list.now samples.old names.old)
        (record { marks = length marks.entry.now })
        result samples.new names.new marks.exit.now }
{
    rolbhunga::rolbhunga_run_f32(list, samples, w, set, marks, names)
}

#[unsafe(no_mangle)]
pub extern "C" fn rolbhunga_run_u16(
    list: &[u8],
    samples: &mut [u16],
    w: Window,
    period: usize,
    preview: bool,
    marks: &mut [u32],
    names: &mut [u8],
) -> Numbers
    ensures { Told (u16_out w period preview (record { marks = length marks.entry.now })
        list.now samples.old names.old)
        (record { marks = length marks.entry.now })
        result samples.new names.new marks.exit.now }
{
    rolbhunga::rolbhunga_run_u16(list, samples, w, period, preview, marks, names)
}

#[unsafe(no_mangle)]
pub extern "C" fn rolbhunga_whole(
    list: &[u8],
    full_width: u32,
    full_height: u32,
    preview: bool,
    number: u32,
) -> bool
    ensures { result ≡ whole_frame full_width full_height preview list.now number }
{
    rolbhunga::rolbhunga_whole(list, full_width, full_height, preview, number)
}

#[unsafe(no_mangle)]
pub extern "C" fn rolbhunga_bytes_f32(
    list: &[u8],
    bytes: &mut [u8],
    w: Window,
    set: Settings,
    work: &mut [f32],
    marks: &mut [u32],
    names: &mut [u8],
) -> Numbers
    ensures { Bytes 4 (to_bits binary32) nan nought
        (f32_out w set (record { marks = length marks.entry.now })
        list.now (floats_in bytes.old) names.old)
        (record { marks = length marks.entry.now })
        bytes.old names.old (length work.old)
        result bytes.new names.new marks.exit.now work.new }
{
    rolbhunga::rolbhunga_bytes_f32(list, bytes, w, set, work, marks, names)
}

#[unsafe(no_mangle)]
pub extern "C" fn rolbhunga_bytes_u16(
    list: &[u8],
    bytes: &mut [u8],
    w: Window,
    period: usize,
    preview: bool,
    work: &mut [u16],
    marks: &mut [u32],
    names: &mut [u8],
) -> Numbers
    ensures { Bytes 2 (λ n. n) 0 0
        (u16_out w period preview (record { marks = length marks.entry.now })
        list.now (wholes_in bytes.old) names.old)
        (record { marks = length marks.entry.now })
        bytes.old names.old (length work.old)
        result bytes.new names.new marks.exit.now work.new }
{
    rolbhunga::rolbhunga_bytes_u16(list, bytes, w, period, preview, work, marks, names)
}
