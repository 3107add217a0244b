// Gain maps, on one plane of a lent row.
#![tactic(auto)]

ghost use Rattle.std.specs.Prelude.{◌≡◌, ℕ, ◌+◌, ◌-◌, ◌*◌, ◌≤◌, ◌<◌, min, length, Float};
ghost use Rattle.std.specs.Float.{binary32, binary64};
ghost use Rattle.std.specs.Float.Ieee.{add, mul};
ghost use Rattle.num_convert.specs.Convert.{whole_in};
ghost use Rattle.row_select.specs.Walks.{walked, Walks};
ghost use Rattle.dng.specs.Value.{position};
ghost use Rattle.row_gain.specs.Gain.{AxisIs, OnMap, MapSized, map_position, map_gain};
ghost use Rattle.row_gain.specs.Blocks.{within, Fillable, Filled, Counted, Begins, Among};
ghost use Rattle.row_gain.specs.Strip.{RulerIs, place_on, ColumnIs, Beside, StripIs, StripAt, Reaches, PairIs, line_of, along_strip};

use dng::Grid;
use row_select::Walk;

// A gain map: its points down and across, where they lie, and its planes. The gains stand in the opcode's body.
#[derive(Clone, Copy)]
pub struct Map {
    pub points_v: u32,
    pub points_h: u32,
    pub grid: Grid,
    pub planes: u32,
}

// ---- where an image coordinate lies between the points of a map

// The point after i, held to the last. `(i + 1).min(last)` would wrap at the largest u32.
fn next(i: u32, last: u32) -> u32
    ensures { result ≡ min (i + 1) last }
{
    if i < last { i + 1 } else { last }
}

// The point before a coordinate, and how far the coordinate lies on the way to the next.
#[derive(Clone, Copy)]
pub struct Column {
    pub lower: u32,
    pub share: f32,
}

// An axis of a map ready to measure by: the full size, at least 1, and the last point's number as floats.
#[derive(Clone, Copy)]
struct Ruler {
    full: f64,
    origin: f64,
    spacing: f64,
    last: f64,
}

impl Ruler {
    fn new(full: u32, origin: f64, spacing: f64, n: u32) -> Self
        ensures { RulerIs full origin spacing n result }
    {
        Ruler {
            full: num_convert::f64_of_u32(full.max(1)),
            origin,
            spacing,
            last: num_convert::f64_of_u32(n.saturating_sub(1)),
        }
    }

    // The position of an image coordinate, held to the points; 0 unless the spacing is above 0.
    fn place(self, at: u32) -> f64
        ensures { result ≡ place_on self at }
    {
        if self.spacing > 0.0 {
            num_convert::held(
                (num_convert::f64_of_u32(at) / self.full - self.origin) / self.spacing,
                0.0,
                self.last,
            )
        } else {
            0.0
        }
    }

    fn column(self, at: u32) -> Column
        ensures { ColumnIs (place_on self at) result }
    {
        let f = num_round::floor(self.place(at));
        Column {
            lower: f.index,
            share: num_narrow::to_f32(f.rest),
        }
    }
}

// The two points beside a coordinate, and how far it lies on the way from the one to the other.
#[derive(Clone, Copy)]
pub struct Axis {
    pub lower: u32,
    pub upper: u32,
    pub share: f32,
}

pub fn axis_at(at: u32, full: u32, origin: f64, spacing: f64, n: u32) -> Axis
    ensures { AxisIs (position at full origin spacing n) n result }
{
    let c = Ruler::new(full, origin, spacing, n).column(at);
    Axis {
        lower: c.lower,
        upper: next(c.lower, n.saturating_sub(1)),
        share: c.share,
    }
}

// The axis of image row y. It takes divisions, and is the same for each plane of the row.
pub fn row_axis(g: Grid, y: u32, full_height: u32, points_v: u32) -> Axis
    ensures { AxisIs (position y full_height g.origin_v g.spacing_v points_v) points_v result }
{
    axis_at(y, full_height, g.origin_v, g.spacing_v, points_v)
}

// ---- two map rows mixed

// The two map rows around an image row, as the code carries them: where in the body the gains of map column 0 stand,
// how far apart the map columns are, the last map column, and the share of the second row.
#[derive(Clone, Copy)]
struct Strip {
    near: usize,
    far: usize,
    step: usize,
    last: u32,
    share: f32,
}

// `planes` is the map's own count, at least 1; planes are fastest in a map, rows slowest.
fn strip_of(v: Axis, columns: u32, planes: u32, m: u32) -> Strip
    requires { Beside v columns planes m }
    ensures { StripIs v columns planes m result }
{
    let width = columns as usize * planes as usize;
    Strip {
        near: 76 + 4 * (v.lower as usize * width + m as usize),
        far: 76 + 4 * (v.upper as usize * width + m as usize),
        step: 4 * planes as usize,
        last: columns.saturating_sub(1),
        share: v.share,
    }
}

impl Map {
    // What measures across an image of the full width.
    fn ruler(self, full: u32) -> Ruler
        ensures { RulerIs full self.grid.origin_h self.grid.spacing_h self.points_h result }
    {
        Ruler::new(full, self.grid.origin_h, self.grid.spacing_h, self.points_h)
    }

    // The strip of map plane m around the axis v.
    fn strip(self, v: Axis, m: u32) -> Strip
        requires { MapSized self m × OnMap v self.points_v }
        ensures { StripAt self m v result }
    {
        strip_of(v, self.points_h, self.planes.max(1), m)
    }
}

// The gain of map column h between the two rows.
fn line_at(body: &[u8], s: Strip, h: u32) -> f32
    requires { Reaches s × (h ≤ s.last) }
    ensures { result ≡ line_of body.now s h }
{
    let ahead = h as usize * s.step;
    let a = num_words::f32_at(body, s.near + ahead);
    let b = num_words::f32_at(body, s.far + ahead);
    a + (b - a) * s.share
}

// The lines of map column h and of the one after it, the second less the first: what the image columns between the two
// have in common.
#[derive(Clone, Copy)]
struct Pair {
    h: u32,
    a: f32,
    d: f32,
}

impl Pair {
    fn at(body: &[u8], s: Strip, h: u32) -> Self
        requires { Reaches s × (h ≤ s.last) }
        ensures { PairIs body.now s result × (result.h ≡ h) }
    {
        let a = line_at(body, s, h);
        let b = line_at(body, s, next(h, s.last));
        Pair { h, a, d: b - a }
    }

    // To the pair of h: mostly the one at hand, which then stays where it is.
    fn move_to(&mut self, body: &[u8], s: Strip, h: u32)
        requires { Reaches s × (h ≤ s.last) × PairIs body.now s self.old }
        ensures { PairIs body.now s self.new × (self.new.h ≡ h) }
    {
        if self.h != h {
            *self = Pair::at(body, s, h);
        }
    }

    // v times the gain at the share t between the two lines.
    fn raise(self, t: f32, v: f32) -> f32
        ensures { result ≡ mul binary32 v (add binary32 self.a (mul binary32 self.d t)) }
    {
        v * (self.a + self.d * t)
    }
}

// ---- one row

// The selected columns of a row between the lines of a strip; `along` measures across the image. Neighbours mostly lie
// between the same two map columns, so the pair is kept.
fn row_along(row: &mut [f32], k: Walk, body: &[u8], s: Strip, along: Ruler)
    requires { Walks k (length row.old) × Reaches s × (along.last ≡ whole_in binary64 s.last) }
    ensures { row.new ≡ walked k (along_strip body.now s (place_on along)) row.old }
{
    let stop = row_select::stop_of(k, row.len());
    let step = k.pitch * k.planes;
    // the image column of sample i, beside i: to work it out of i would take a division
    let mut x = k.x0 + k.col;
    let mut i = k.col * k.planes + k.plane;
    let mut q = Pair::at(body, s, 0);
    // not `step_by`, which takes a dozen instructions more a sample
    while i < stop {
        let c = along.column(x as u32);
        q.move_to(body, s, c.lower);
        row[i] = q.raise(c.share, row[i]);
        x += k.pitch;
        i += step;
    }
}

// One row, one plane: every selected sample times the gain at its own place. v is the row's axis, m the plane of the
// map.
pub fn gain_row(row: &mut [f32], k: Walk, body: &[u8], map: Map, v: Axis, m: u32, full_width: u32)
    requires { Walks k (length row.old) × MapSized map m × OnMap v map.points_v }
    ensures { (f : Float)
        → AxisIs f map.points_v v
        → row.new ≡ walked k (map_gain body.now map m full_width f) row.old }
{
    row_along(row, k, body, map.strip(v, m), map.ruler(full_width));
}

// ---- a block of columns: the positions are worked out once and serve every row

// Fills `columns` with the places of the image columns x, x + pitch and so on before `end`, and says how many those
// are.
pub fn fill_block(
    columns: &mut [Column],
    x: usize,
    pitch: usize,
    end: usize,
    map: Map,
    full_width: u32,
) -> usize
    requires { Fillable x pitch end (length columns.old) }
    ensures { Filled (map_position map full_width) x pitch result columns.new
        × Counted x pitch end (length columns.old) result }
{
    let r = map.ruler(full_width);
    let stop = end.min(x + columns.len() * pitch);
    let mut n = 0;
    for at in (x..stop).step_by(pitch) {
        columns[n] = r.column(at as u32);
        n += 1;
    }
    n
}

// The selected columns of a row from image column x0 + from on, at the places that `columns` has of them.
fn block_along(row: &mut [f32], k: Walk, from: usize, columns: &[Column], body: &[u8], s: Strip)
    requires { Walks k (length row.old) × Begins k from (length columns.now)
        × Among s.last columns.now
        × Reaches s }
    ensures { (f : ℕ → Float)
        → Filled f (k.x0 + from) k.pitch (length columns.now) columns.now
        → row.new
        ≡ walked k
        (within (k.x0 + from) (k.x0 + from + length columns.now * k.pitch) (along_strip body.now s f))
        row.old }
{
    let stop = row_select::stop_of(k, row.len()).min((from + columns.len() * k.pitch) * k.planes);
    let step = k.pitch * k.planes;
    // the column of sample i, beside i: `zip` would test two ends for each sample
    let mut j = 0;
    let mut i = from * k.planes + k.plane;
    let mut q = Pair::at(body, s, 0);
    // not `step_by`, which takes a dozen instructions more a sample
    while i < stop {
        q.move_to(body, s, columns[j].lower);
        row[i] = q.raise(columns[j].share, row[i]);
        j += 1;
        i += step;
    }
}

// One row, one plane, the selected columns from image column x0 + from on, with their places from `fill_block`. v is
// the row's axis, m the plane of the map.
pub fn gain_block(
    row: &mut [f32],
    k: Walk,
    from: usize,
    columns: &[Column],
    body: &[u8],
    map: Map,
    v: Axis,
    m: u32,
    full_width: u32,
)
    requires { Walks k (length row.old) × MapSized map m × OnMap v map.points_v
        × Begins k from (length columns.now)
        × Filled (map_position map full_width) (k.x0 + from) k.pitch (length columns.now) columns.now }
    ensures { (f : Float)
        → AxisIs f map.points_v v
        → row.new
        ≡ walked k
        (within (k.x0 + from) (k.x0 + from + length columns.now * k.pitch)
        (map_gain body.now map m full_width f))
        row.old }
{
    block_along(row, k, from, columns, body, map.strip(v, m));
}
