// A list on one lent row: the row form as a caller knows it. Document 01, 'Taken and left' and 'What comes back'.
#![tactic(auto)]

ghost use Rattle.std.specs.Prelude.{◌≡◌, true, ◌&&◌, cond, ◌*◌, ◌≤◌, length};
ghost use Rattle.pointwise.specs.Points.{each};
ghost use Rattle.dng.specs.List.{preview_of, body_of};
ghost use Rattle.dng.specs.Select.{on_row, on_region};
ghost use Rattle.dng.specs.Value.{rule_of};
ghost use Rattle.dng.specs.Run.{kept_in, row_on};
ghost use Rattle.dng.specs.Answer.{row_out};
ghost use Rattle.dng.specs.Bounds.{bounded, RowFits};
ghost use Rattle.win_gain.specs.Columns.{MapFits, gain_rule};
ghost use Rattle.run_row.specs.Rows.{RowRan, Narrow, place_of, Spans, Begun, every_row, window_of, frame_of};

use dng::{Cursor, Entry, Opcode, Region, RowAnswer, RowWindow, Window};
use row_opcode::Place;
use win_gain::GainMap;

// The row's place in the image. Its numbers are in range, so that none is cut.
fn place_of(w: RowWindow, y: usize) -> Place
    requires { Narrow w y }
    ensures { result ≡ place_of w y }
{
    Place {
        x0: w.x0 as u32,
        planes: w.planes as u32,
        y: y as u32,
        full_width: w.full_width as u32,
        full_height: w.full_height as u32,
    }
}

// The row as the only row of a window, `width` columns wide.
fn window_of(g: Place, width: usize) -> Window
    ensures { result ≡ window_of g width }
{
    Window {
        width,
        height: 1,
        planes: g.planes as usize,
        stride: width,
        x0: g.x0 as usize,
        y0: g.y as usize,
        full_width: g.full_width as usize,
        full_height: g.full_height as usize,
    }
}

// One opcode of the list, as a step of the row.
fn step_one(list: &[u8], row: &mut [f32], g: Place, e: Entry, op: Opcode, scale: f32)
    requires { RowFits g.x0 g.planes g.y (length row.old) × (bounded op ≡ true) }
    ensures { row.new
        ≡ each
        (on_row g.x0 g.planes g.y (length row.old)
        (rule_of (frame_of g scale) op (body_of list.now e)))
        row.old }
{
    let ready = row_opcode::prepare(op, g.x0, g.full_width, g.full_height);
    row_opcode::row_step(&mut *row, g, op, ready, list_entries::body(list, e), scale);
}

// How many columns a row begins, of at most `width`. Only one that is cut short asks for a division.
fn columns_of(len: usize, planes: u32, width: usize) -> usize
    requires { (1 ≤ planes) × (planes ≤ 8) × (1 ≤ width) × (width ≤ 65536) × (len ≤ width * planes) }
    ensures { Begun len planes result }
{
    let p = planes as usize;
    if width * p <= len {
        return width;
    }
    ((len + p - 1) / p).max(1)
}

// The region, of a row that is known to be selected: at a row pitch of 1 nothing is divided again.
fn every_row(r: Region) -> Region
    ensures { result ≡ every_row r }
{
    Region {
        top: r.top,
        left: r.left,
        bottom: r.bottom,
        right: r.right,
        plane: r.plane,
        planes: r.planes,
        row_pitch: 1,
        col_pitch: r.col_pitch,
    }
}

// A gain map on all planes, by blocks of the columns that the row has. A row that has no sample of the region is left
// first.
fn gain_planes(row: &mut [f32], g: Place, width: usize, gain: GainMap, body: &[u8])
    requires { RowFits g.x0 g.planes g.y (length row.old) × Spans g width (length row.old) × MapFits gain.map }
    ensures { row.new
        ≡ each
        (on_row g.x0 g.planes g.y (length row.old)
        (on_region gain.region (gain_rule g.full_width g.full_height body.now gain)))
        row.old }
{
    let r = gain.region;
    let start = row_select::first_column(r.left, r.col_pitch, g.x0);
    if row_opcode::touched(g, r, start, row.len()) {
        let columns = columns_of(row.len(), g.planes, width);
        let every = GainMap {
            region: every_row(r),
            map: gain.map,
        };
        win_gain::blocks(row, window_of(g, columns), every, start, body);
    }
}

// One opcode of the list, unless it is left out. The planes of a gain map share the positions of their columns; one
// plane has nothing to share.
fn perform_one(
    list: &[u8],
    row: &mut [f32],
    g: Place,
    width: usize,
    e: Entry,
    op: Opcode,
    scale: f32,
    preview: bool,
)
    requires { RowFits g.x0 g.planes g.y (length row.old) × (bounded op ≡ true) × Spans g width (length row.old) }
    ensures { row.new
        ≡ cond (preview && preview_of e) row.old
        (each
        (on_row g.x0 g.planes g.y (length row.old)
        (rule_of (frame_of g scale) op (body_of list.now e)))
        row.old) }
{
    if list_entries::dropped(e, preview) {
        return;
    }
    if g.planes < 2 {
        step_one(list, row, g, e, op, scale);
        return;
    }
    match win_gain::gain_of(op) {
        Some(gain) => gain_planes(row, g, width, gain, list_entries::body(list, e)),
        None => step_one(list, row, g, e, op, scale),
    }
}

// All opcodes that are left, in list order, on a row of at most `width` columns.
fn perform(list: &[u8], row: &mut [f32], g: Place, width: usize, scale: f32, preview: bool)
    requires { RowFits g.x0 g.planes g.y (length row.old) × Spans g width (length row.old) }
    ensures { row.new
        ≡ row_on (frame_of g scale) g.x0 g.planes g.y list.now (kept_in preview list.now)
        row.old }
{
    let n = list_read::count(list);
    let mut c = Cursor { at: 4 };
    for k in 0..n {
        let Ok(s) = list_read::step(list, c) else {
            return;
        };
        perform_one(list, &mut *row, g, width, s.entry, s.op, scale, preview);
        c = s.next;
    }
}

// Runs a list on a row, the row y of the image, as the f32 run would: 1, 20 to 25 and 3, in this order, leave the row
// as it is.
pub fn run_row(
    list: &[u8],
    row: &mut [f32],
    w: RowWindow,
    y: usize,
    scale: f32,
    preview: bool,
) -> RowAnswer
    ensures { RowRan (row_out w scale preview y list.now row.old) result row.new }
{
    match run_refuse::settle_row(list, w, preview, y, row.len()) {
        Err(answer) => answer,
        Ok(skipped) => {
            // a window has a column: a row of width 0 is empty, and fits one of width 1
            perform(
                list,
                &mut *row,
                place_of(w, y),
                w.width.max(1),
                scale,
                preview,
            );
            RowAnswer::Done { skipped: skipped }
        }
    }
}
