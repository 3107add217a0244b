// The body of an entry, by its id: the header fields of an opcode, or a malformed body, why, and at which byte. What a
// count counts stays in the list. All fields of fixed size are read before a count is judged.
// The body starts at `at` of the list and is `len` bytes long; every function takes any position and any length.
#![tactic(auto)]

ghost use Rattle.std.specs.Prelude.{◌≡◌, cond, leb, ◌*◌, ◌/◌, ◌<◌, Ok};
ghost use Rattle.dng.specs.declared.Opcode.TheVariants.{MapTable};
ghost use Rattle.dng.specs.declared.Reason.TheVariants.{Inside, Count, Degree};
ghost use Rattle.dng.specs.List.{refusal, offset_in, warp_at, vignette_at, constant_at, bad_list_at, trim_at, counted_at};
ghost use Rattle.dng.specs.List.{polynomial_at, gain_at, parsed_at};
ghost use Rattle.list_bodies.specs.Bodies.{counted_in, line_of};

use dng::{Entry, Opcode, Reason, Refusal, Region};
use num_words::Cut;

// 24 or 25, at the field k bytes into the body.
fn refuse(list: &[u8], at: usize, k: usize, reason: Reason) -> Refusal
    ensures { result ≡ refusal reason (offset_in list.now at k) }
{
    Refusal {
        reason,
        at: list_fields::place(list, at, k),
    }
}

// A malformed warp has no planes, and the list goes on.
fn warp(list: &[u8], at: usize, len: usize) -> Result<Opcode, Refusal>
    ensures { result ≡ Ok (warp_at list.now at len) }
{
    let none = Opcode::WarpRectilinear {
        planes: 0,
        cx: 0.5,
        cy: 0.5,
    };
    if list_counts::warp_fits(list, at, len) {
        let planes = list_fields::word(list, at, 0);
        let k = planes as usize * 48;
        Ok(Opcode::WarpRectilinear {
            planes,
            cx: list_fields::real(list, at, 4 + k),
            cy: list_fields::real(list, at, 12 + k),
        })
    } else {
        Ok(none)
    }
}

fn vignette(list: &[u8], at: usize, len: usize) -> Result<Opcode, Refusal>
    ensures { result ≡ vignette_at list.now at len }
{
    let radial = list_fields::radial_in(list, at, len)?;
    Ok(Opcode::FixVignetteRadial { radial })
}

// 23, in a body of words alone: the first that is not whole starts at the last multiple of four.
fn cut_words(list: &[u8], at: usize, len: usize) -> Refusal
    ensures { result ≡ refusal Inside (offset_in list.now at (len / 4 * 4)) }
{
    refuse(list, at, len / 4 * 4, Reason::Inside)
}

fn constant(list: &[u8], at: usize, len: usize) -> Result<Opcode, Refusal>
    ensures { result ≡ constant_at list.now at len }
{
    if len < 8 {
        return Err(cut_words(list, at, len));
    }
    Ok(Opcode::FixBadPixelsConstant {
        constant: list_fields::word(list, at, 0),
        bayer_phase: list_fields::word(list, at, 4),
    })
}

fn bad_list(list: &[u8], at: usize, len: usize) -> Result<Opcode, Refusal>
    ensures { result ≡ bad_list_at list.now at len }
{
    let bayer_phase = list_fields::word_in(list, at, 0, len)?;
    let points = list_fields::word_in(list, at, 4, len)?;
    let rects = list_fields::word_in(list, at, 8, len)?;
    if list_counts::bad_list_fits(list, at, len) {
        Ok(Opcode::FixBadPixelsList {
            bayer_phase,
            points,
            rects,
        })
    } else {
        Err(refuse(list, at, 4, Reason::Count))
    }
}

fn trim(list: &[u8], at: usize, len: usize) -> Result<Opcode, Refusal>
    ensures { result ≡ trim_at list.now at len }
{
    if len < 16 {
        return Err(cut_words(list, at, len));
    }
    Ok(Opcode::TrimBounds {
        top: list_fields::word(list, at, 0),
        left: list_fields::word(list, at, 4),
        bottom: list_fields::word(list, at, 8),
        right: list_fields::word(list, at, 12),
    })
}

// A region and the number behind it: a count, or a degree.
#[derive(Clone, Copy)]
struct Counted {
    region: Region,
    n: u32,
}

fn counted_in(list: &[u8], at: usize, len: usize) -> Result<Counted, Cut>
    ensures { result ≡ counted_in list.now at len }
{
    let region = list_fields::region_in(list, at, len)?;
    let n = list_fields::word_in(list, at, 32, len)?;
    Ok(Counted { region, n })
}

fn table(list: &[u8], at: usize, len: usize) -> Result<Opcode, Refusal>
    ensures { result ≡ counted_at 2 MapTable list.now at len }
{
    let Counted { region, n } = counted_in(list, at, len)?;
    if list_counts::values_fit(list, at, len, 2) {
        Ok(Opcode::MapTable { region, n })
    } else {
        Err(refuse(list, at, 32, Reason::Count))
    }
}

// 25 before 24.
fn degree_reason(d: u32) -> Reason
    ensures { result ≡ cond (leb d 8) Count Degree }
{
    if Opcode::MAX_DEGREE < d {
        Reason::Degree
    } else {
        Reason::Count
    }
}

fn polynomial(list: &[u8], at: usize, len: usize) -> Result<Opcode, Refusal>
    ensures { result ≡ polynomial_at list.now at len }
{
    let Counted { region, n: degree } = counted_in(list, at, len)?;
    if list_counts::degree_fits(list, at, len) {
        Ok(Opcode::MapPolynomial { region, degree })
    } else {
        Err(refuse(list, at, 32, degree_reason(degree)))
    }
}

fn gain(list: &[u8], at: usize, len: usize) -> Result<Opcode, Refusal>
    ensures { result ≡ gain_at list.now at len }
{
    let region = list_fields::region_in(list, at, len)?;
    let points_v = list_fields::word_in(list, at, 32, len)?;
    let points_h = list_fields::word_in(list, at, 36, len)?;
    let grid = list_fields::grid_in(list, at, len)?;
    let map_planes = list_fields::word_in(list, at, 72, len)?;
    if list_counts::gains_fit(list, at, len) {
        Ok(Opcode::GainMap {
            region,
            points_v,
            points_h,
            grid,
            map_planes,
        })
    } else {
        Err(refuse(list, at, 32, Reason::Count))
    }
}

fn line_of(id: u32, region: Region, n: u32) -> Opcode
    ensures { result ≡ line_of id region n }
{
    match id {
        Opcode::DELTA_PER_ROW => Opcode::DeltaPerRow { region, n },
        Opcode::DELTA_PER_COLUMN => Opcode::DeltaPerColumn { region, n },
        Opcode::SCALE_PER_ROW => Opcode::ScalePerRow { region, n },
        _ => Opcode::ScalePerColumn { region, n },
    }
}

fn line(list: &[u8], id: u32, at: usize, len: usize) -> Result<Opcode, Refusal>
    ensures { result ≡ counted_at 4 (line_of id) list.now at len }
{
    let Counted { region, n } = counted_in(list, at, len)?;
    if list_counts::values_fit(list, at, len, 4) {
        Ok(line_of(id, region, n))
    } else {
        Err(refuse(list, at, 32, Reason::Count))
    }
}

// Ids 1 to 9, and 0, which is none.
fn low(list: &[u8], id: u32, at: usize, len: usize) -> Result<Opcode, Refusal>
    requires { id < 10 }
    ensures { result ≡ parsed_at list.now id at len }
{
    match id {
        Opcode::WARP_RECTILINEAR => warp(list, at, len),
        Opcode::WARP_FISHEYE => Ok(Opcode::WarpFisheye),
        Opcode::FIX_VIGNETTE_RADIAL => vignette(list, at, len),
        Opcode::FIX_BAD_PIXELS_CONSTANT => constant(list, at, len),
        Opcode::FIX_BAD_PIXELS_LIST => bad_list(list, at, len),
        Opcode::TRIM_BOUNDS => trim(list, at, len),
        Opcode::MAP_TABLE => table(list, at, len),
        Opcode::MAP_POLYNOMIAL => polynomial(list, at, len),
        Opcode::GAIN_MAP => gain(list, at, len),
        _ => Ok(Opcode::Other { id }),
    }
}

pub fn parse(list: &[u8], e: Entry) -> Result<Opcode, Refusal>
    ensures { result ≡ parsed_at list.now e.id e.at e.len }
{
    let id = e.id;
    let at = e.at;
    let len = e.len;
    if Opcode::SCALE_PER_COLUMN < id {
        return Ok(Opcode::Other { id });
    }
    if id < Opcode::DELTA_PER_ROW {
        return low(list, id, at, len);
    }
    line(list, id, at, len)
}
