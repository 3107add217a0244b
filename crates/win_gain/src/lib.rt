// A gain map over a window: the places of a block of columns are worked out once and serve every row.
#![tactic(auto)]

ghost use Rattle.std.specs.Prelude.{◌≡◌, ◌+◌, ◌*◌, ◌≤◌, ◌<◌, min, length};
ghost use Rattle.pointwise.specs.Points.{each};
ghost use Rattle.pointwise.specs.Select.{First};
ghost use Rattle.row_select.specs.Walks.{walked, Walks};
ghost use Rattle.dng.specs.Select.{on_row, on_region, on_window};
ghost use Rattle.dng.specs.Bounds.{RowFits};
ghost use Rattle.dng.specs.Value.{position};
ghost use Rattle.row_gain.specs.Gain.{AxisIs, map_position};
ghost use Rattle.row_gain.specs.Blocks.{within, Filled, Begins};
ghost use Rattle.row_opcode.specs.Planes.{region_planes};
ghost use Rattle.win_rows.specs.Windows.{WindowFits, Ordered};
ghost use Rattle.win_gain.specs.Columns.{MapFits, pitch_of, gain_rule, block_rule, Lies, Block, Room};
ghost use Rattle.win_gain.specs.Gains.{GainIs};

use dng::{Opcode, Region, Window};
use row_gain::{Axis, Column, Map};
use row_opcode::Place;
use row_select::{Start, Walk};

// A gain map as an opcode has it: the samples that it is for, and the map. Its gains stand in the opcode's body.
#[derive(Clone, Copy)]
pub struct GainMap {
    pub region: Region,
    pub map: Map,
}

// ---- a block of one lent row

// One plane: the selected columns from image column x0 + from on, at their places. v is the row's axis.
fn plane_block(
    row: &mut [f32],
    k: Walk,
    g: Place,
    gain: GainMap,
    body: &[u8],
    v: Axis,
    from: usize,
    columns: &[Column],
)
    requires { Walks k (length row.old) × MapFits gain.map × Begins k from (length columns.now)
        × Filled (map_position gain.map g.full_width) (k.x0 + from) k.pitch (length columns.now) columns.now
        × AxisIs (position g.y g.full_height gain.map.grid.origin_v gain.map.grid.spacing_v gain.map.points_v)
        gain.map.points_v v }
    ensures { row.new
        ≡ walked k
        (within (k.x0 + from) (k.x0 + from + length columns.now * k.pitch)
        (gain_rule g.full_width g.full_height body.now gain g.y))
        row.old }
{
    let m = row_opcode::map_plane(k.plane, gain.region.plane, gain.map.planes);
    row_gain::gain_block(row, k, from, columns, body, gain.map, v, m, g.full_width);
}

// The planes of a region, one after another. They share the row's axis.
fn planes_block(
    row: &mut [f32],
    g: Place,
    gain: GainMap,
    start: Start,
    body: &[u8],
    from: usize,
    columns: &[Column],
)
    requires { RowFits g.x0 g.planes g.y (length row.old)
        × First gain.region.left gain.region.col_pitch g.x0 start.col start.nth × MapFits gain.map
        × Block g.x0 g.full_width gain from columns.now }
    ensures { row.new
        ≡ region_planes g gain.region gain.region.planes
        (within (g.x0 + from) (g.x0 + from + length columns.now * pitch_of gain.region)
        (gain_rule g.full_width g.full_height body.now gain g.y))
        row.old }
{
    let v = row_gain::row_axis(gain.map.grid, g.y, g.full_height, gain.map.points_v);
    // not `each_plane`, whose closure is not told where the walk begins
    for p in gain.region.plane as usize..row_opcode::planes_end(g, gain.region) {
        let k = row_opcode::walk_at(g, gain.region, start, p);
        plane_block(row, k, g, gain, body, v, from, columns);
    }
}

fn row_block(
    row: &mut [f32],
    g: Place,
    gain: GainMap,
    start: Start,
    body: &[u8],
    from: usize,
    columns: &[Column],
)
    requires { RowFits g.x0 g.planes g.y (length row.old)
        × First gain.region.left gain.region.col_pitch g.x0 start.col start.nth × MapFits gain.map
        × Block g.x0 g.full_width gain from columns.now }
    ensures { row.new
        ≡ each
        (on_row g.x0 g.planes g.y (length row.old)
        (block_rule gain.region (g.x0 + from) (g.x0 + from + length columns.now * pitch_of gain.region)
        (gain_rule g.full_width g.full_height body.now gain)))
        row.old }
{
    if row_opcode::touched(g, gain.region, start, row.len()) {
        planes_block(row, g, gain, start, body, from, columns);
    }
}

// ---- a block of a window

fn block_rows(
    samples: &mut [f32],
    w: Window,
    gain: GainMap,
    start: Start,
    body: &[u8],
    from: usize,
    columns: &[Column],
)
    requires { WindowFits w × Ordered w
        × First gain.region.left gain.region.col_pitch w.x0 start.col start.nth × MapFits gain.map
        × Block w.x0 w.full_width gain from columns.now }
    ensures { samples.new
        ≡ each
        (on_window w (length samples.old)
        (block_rule gain.region (w.x0 + from) (w.x0 + from + length columns.now * pitch_of gain.region)
        (gain_rule w.full_width w.full_height body.now gain)))
        samples.old }
{
    win_rows::each_row(samples, w, move |row, g| {
        row_block(row, g, gain, start, body, from, columns)
    });
}

// As many columns from image column x0 + from on as the table holds, or as there are before `end`; answers how far the
// next block begins. Each block works out its rows' axes again; a window of up to 2048 columns has one block.
fn one_block(
    samples: &mut [f32],
    w: Window,
    gain: GainMap,
    start: Start,
    body: &[u8],
    from: usize,
    end: usize,
    table: &mut [Column],
) -> usize
    requires { WindowFits w × Ordered w
        × First gain.region.left gain.region.col_pitch w.x0 start.col start.nth × MapFits gain.map
        × Lies w.x0 gain.region from × (w.x0 + from < end) × (end ≤ 16842752) × Room (length table.old) }
    ensures { (samples.new
        ≡ each
        (on_window w (length samples.old)
        (block_rule gain.region (w.x0 + from) (w.x0 + result)
        (gain_rule w.full_width w.full_height body.now gain)))
        samples.old)
        × Lies w.x0 gain.region result × (from < result) }
{
    let pitch = (gain.region.col_pitch as usize).max(1);
    let full = w.full_width as u32;
    let count = row_gain::fill_block(table, w.x0 + from, pitch, end, gain.map, full);
    block_rows(samples, w, gain, start, body, from, &table[..count]);
    from + count * pitch
}

// ---- a window

// Past the last image column that the region and the window have.
fn columns_end(w: Window, r: Region) -> usize
    requires { WindowFits w }
    ensures { result ≡ min r.right (w.x0 + w.width) }
{
    (r.right as usize).min(w.x0 + w.width)
}

// The blocks of the columns that the region and the window share, one after another.
fn all_blocks(
    samples: &mut [f32],
    w: Window,
    gain: GainMap,
    start: Start,
    body: &[u8],
    table: &mut [Column],
)
    requires room { Room (length table.old) }
    requires window { WindowFits w }
    requires ordered { Ordered w }
    requires first { First gain.region.left gain.region.col_pitch w.x0 start.col start.nth }
    requires fits { MapFits gain.map }
    ensures { samples.new
        ≡ each
        (on_window w (length samples.old)
        (on_region gain.region (gain_rule w.full_width w.full_height body.now gain)))
        samples.old }
{
    let end = columns_end(w, gain.region);
    let mut from = start.col;
    // no `for`: where the next block begins is known when a block is filled
    while w.x0 + from < end {
        from = one_block(samples, w, gain, start, body, from, end, table);
    }
}

// The same with a table that is as long as is needed: to clear the long one costs as much as a small window. Not in
// line: the tables would stand in the frame of what runs the other opcodes too.
#[inline(never)]
pub fn blocks(samples: &mut [f32], w: Window, gain: GainMap, start: Start, body: &[u8])
    requires { WindowFits w × Ordered w
        × First gain.region.left gain.region.col_pitch w.x0 start.col start.nth × MapFits gain.map }
    ensures { samples.new
        ≡ each
        (on_window w (length samples.old)
        (on_region gain.region (gain_rule w.full_width w.full_height body.now gain)))
        samples.old }
{
    let columns = columns_end(w, gain.region).saturating_sub(w.x0 + start.col);
    let clear = Column {
        lower: 0,
        share: 0.0,
    };
    if columns < 128 {
        all_blocks(samples, w, gain, start, body, &mut [clear; 128]);
    } else {
        all_blocks(samples, w, gain, start, body, &mut [clear; 2048]);
    }
}

// A gain map over a window that has columns and whose rows do not overlap.
pub fn gain_window(samples: &mut [f32], w: Window, gain: GainMap, body: &[u8])
    requires { WindowFits w × Ordered w × MapFits gain.map }
    ensures { samples.new
        ≡ each
        (on_window w (length samples.old)
        (on_region gain.region (gain_rule w.full_width w.full_height body.now gain)))
        samples.old }
{
    let r = gain.region;
    let start = row_select::first_column(r.left, r.col_pitch, w.x0 as u32);
    blocks(samples, w, gain, start, body);
}

// ---- which opcodes are gain maps

pub fn gain_of(op: Opcode) -> Option<GainMap>
    ensures { GainIs op result }
{
    match op {
        Opcode::GainMap {
            region,
            points_v,
            points_h,
            grid,
            map_planes,
        } => {
            let map = Map {
                points_v,
                points_h,
                grid,
                planes: map_planes,
            };
            Some(GainMap { region, map })
        }
        _ => None,
    }
}
