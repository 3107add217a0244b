// One opcode on one lent row. A run prepares an opcode once and hands it to each of its rows.
#![tactic(auto)]

ghost use Rattle.std.specs.Prelude.{◌≡◌, ℕ, true, false, cond, eqb, ◌+◌, min, length, Float};
ghost use Rattle.pointwise.specs.Points.{each};
ghost use Rattle.pointwise.specs.Select.{selects, First};
ghost use Rattle.row_select.specs.Walks.{walked, Walks};
ghost use Rattle.dng.specs.Select.{on_row, on_region};
ghost use Rattle.dng.specs.Bounds.{bounded, RowFits};
ghost use Rattle.dng.specs.Value.{rule_of, rule16_of, row_index, column_index, map_table, map_table16, nought, one, nth, delta, scaled, position, gained};
ghost use Rattle.row_gain.specs.Gain.{AxisIs};
ghost use Rattle.row_vignette.specs.Reach.{frame_at};
ghost use Rattle.row_opcode.specs.Calls.{Takes, Does};
ghost use Rattle.row_opcode.specs.Plans.{plan_of, task_rule, task_fits, table_size};
ghost use Rattle.row_opcode.specs.Ready.{Ready};
ghost use Rattle.row_opcode.specs.Planes.{WalkIs, Along, AxisFor, ValueFor, Untouched, map_plane, region_planes};

use dng::{Grid, Opcode, Radial, Region};
use row_gain::{Axis, Map};
use row_select::{Start, Walk};

// ---- what an opcode is to a row

// What is done to each sample of a region.
#[derive(Clone, Copy)]
pub enum Task {
    Table {
        n: u32,
    },
    Polynomial {
        degree: u32,
    },
    Gain {
        points_v: u32,
        points_h: u32,
        grid: Grid,
        map_planes: u32,
    },
    DeltaRows {
        n: u32,
    },
    DeltaColumns {
        n: u32,
    },
    ScaleRows {
        n: u32,
    },
    ScaleColumns {
        n: u32,
    },
}

// A row knows three kinds of opcodes: those that leave it, the vignette, and those of a region.
#[derive(Clone, Copy)]
pub enum Plan {
    Nothing,
    Vignette(Radial),
    Area(Region, Task),
}

// A region with its task and its first column.
#[derive(Clone, Copy)]
pub struct Area {
    pub region: Region,
    pub task: Task,
    pub start: Start,
}

// The same with what is worked out once for all rows: m2 where it is usable, and a region's first column.
#[derive(Clone, Copy)]
pub enum Prepared {
    Nothing,
    Vignette { radial: Radial, m2: f64 },
    Area(Area),
}

// Where a row lies: its first pixel is the image column x0 of the image row y, and a pixel has `planes` samples.
#[derive(Clone, Copy)]
pub struct Place {
    pub x0: u32,
    pub planes: u32,
    pub y: u32,
    pub full_width: u32,
    pub full_height: u32,
}

fn plan_of(op: Opcode) -> Plan
    ensures { result ≡ plan_of op }
{
    match op {
        Opcode::WarpRectilinear { .. } => Plan::Nothing,
        Opcode::WarpFisheye => Plan::Nothing,
        Opcode::FixVignetteRadial { radial } => Plan::Vignette(radial),
        Opcode::FixBadPixelsConstant { .. } => Plan::Nothing,
        Opcode::FixBadPixelsList { .. } => Plan::Nothing,
        Opcode::TrimBounds { .. } => Plan::Nothing,
        Opcode::MapTable { region, n } => Plan::Area(region, Task::Table { n }),
        Opcode::MapPolynomial { region, degree } => Plan::Area(region, Task::Polynomial { degree }),
        Opcode::GainMap {
            region,
            points_v,
            points_h,
            grid,
            map_planes,
        } => {
            Plan::Area(
                region,
                Task::Gain {
                    points_v,
                    points_h,
                    grid,
                    map_planes,
                },
            )
        }
        Opcode::DeltaPerRow { region, n } => Plan::Area(region, Task::DeltaRows { n }),
        Opcode::DeltaPerColumn { region, n } => Plan::Area(region, Task::DeltaColumns { n }),
        Opcode::ScalePerRow { region, n } => Plan::Area(region, Task::ScaleRows { n }),
        Opcode::ScalePerColumn { region, n } => Plan::Area(region, Task::ScaleColumns { n }),
        Opcode::Other { .. } => Plan::Nothing,
    }
}

pub fn prepare(op: Opcode, x0: u32, full_width: u32, full_height: u32) -> Prepared
    ensures { Ready op x0 full_width full_height result }
{
    match plan_of(op) {
        Plan::Nothing => Prepared::Nothing,
        Plan::Vignette(radial) => match row_vignette::m2(radial, full_width, full_height) {
            Some(m2) => Prepared::Vignette { radial, m2 },
            None => Prepared::Nothing,
        },
        Plan::Area(region, task) => Prepared::Area(Area {
            region,
            task,
            start: row_select::first_column(region.left, region.col_pitch, x0),
        }),
    }
}

// ---- one plane of a row

// The selected rows are counted from the region's top. A pitch of 1 asks for no division, and 0 counts as 1.
fn row_index(r: Region, y: u32) -> usize
    ensures { result ≡ row_index r y }
{
    let down = (y as usize).saturating_sub(r.top as usize);
    if r.row_pitch <= 1 {
        down
    } else {
        down / r.row_pitch as usize
    }
}

fn table_plane(row: &mut [f32], k: Walk, body: &[u8], n: u32, scale: f32)
    requires { Walks k (length row.old) }
    ensures { row.new ≡ walked k (λ x p v. cond (eqb n 0) v (map_table scale n body.now v))
        row.old }
{
    if 0 < n {
        row_tables::table_row(row, k, body, n, scale);
    }
}

// The plane of a map for a plane of a row, counted from the region's first; past the map's last, the last.
pub fn map_plane(plane: usize, first: u32, planes: u32) -> u32
    ensures { result ≡ map_plane plane first planes }
{
    let last = (planes as usize).max(1) - 1;
    plane.saturating_sub(first as usize).min(last) as u32
}

// The axis of a gain map's row, which all planes share. No other task asks for one.
fn axis_of(t: Task, g: Place) -> Axis
    ensures { AxisFor t g result }
{
    match t {
        Task::Gain {
            points_v,
            points_h: _,
            grid,
            map_planes: _,
        } => row_gain::row_axis(grid, g.y, g.full_height, points_v),
        _ => Axis {
            lower: 0,
            upper: 0,
            share: 0.0,
        },
    }
}

// The delta or the scale of a row, which all planes share. No other task asks for one.
fn value_of(t: Task, r: Region, y: u32, body: &[u8], scale: f32) -> f32
    ensures { ValueFor t r y body.now scale result }
{
    match t {
        Task::DeltaRows { n } => row_deltas::row_delta(body, n, row_index(r, y), scale),
        Task::ScaleRows { n } => row_deltas::row_scale(body, n, row_index(r, y)),
        _ => 0.0,
    }
}

fn gain_plane(
    row: &mut [f32],
    k: Walk,
    r: Region,
    g: Place,
    v: Axis,
    body: &[u8],
    points_v: u32,
    points_h: u32,
    grid: Grid,
    map_planes: u32,
)
    requires { Walks k (length row.old) × (task_fits (Task.Gain points_v points_h grid map_planes) ≡ true)
        × AxisIs (position g.y g.full_height grid.origin_v grid.spacing_v points_v) points_v v }
    ensures { (scale : Float)
        → row.new
        ≡ walked k
        (gained (frame_at scale g.full_width g.full_height) body.now r points_v points_h grid
        map_planes g.y)
        row.old }
{
    let m = map_plane(k.plane, r.plane, map_planes);
    let map = Map {
        points_v,
        points_h,
        grid,
        planes: map_planes,
    };
    row_gain::gain_row(row, k, body, map, v, m, g.full_width);
}

// A task on one plane of a row. v and d are what the planes share: a gain map's axis, and the row's delta or scale.
#[tactic(auto, unfolding(dng::specs::Value::delta))]
fn one_plane(
    row: &mut [f32],
    k: Walk,
    r: Region,
    t: Task,
    g: Place,
    v: Axis,
    d: f32,
    body: &[u8],
    scale: f32,
)
    requires { Walks k (length row.old) × Along r k × (task_fits t ≡ true) × AxisFor t g v
        × ValueFor t r g.y body.now scale d }
    ensures { row.new
        ≡ walked k (task_rule (frame_at scale g.full_width g.full_height) r body.now t g.y)
        row.old }
{
    match t {
        Task::Table { n } => table_plane(row, k, body, n, scale),
        Task::Polynomial { degree } => row_polynomial::polynomial_row(row, k, body, degree, scale),
        Task::Gain {
            points_v,
            points_h,
            grid,
            map_planes,
        } => gain_plane(row, k, r, g, v, body, points_v, points_h, grid, map_planes),
        Task::DeltaRows { .. } => row_deltas::add_row(row, k, d),
        Task::DeltaColumns { n } => row_deltas::add_columns(row, k, body, n, scale),
        Task::ScaleRows { .. } => row_deltas::scale_row(row, k, d),
        Task::ScaleColumns { n } => row_deltas::scale_columns(row, k, body, n),
    }
}

pub fn walk_at(g: Place, r: Region, start: Start, plane: usize) -> Walk
    ensures { WalkIs g r start plane result }
{
    Walk {
        x0: g.x0 as usize,
        planes: g.planes as usize,
        left: r.left as usize,
        right: r.right as usize,
        pitch: (r.col_pitch as usize).max(1),
        plane,
        col: start.col,
        nth: start.nth,
    }
}

// ---- a row

// Past the last plane that the region and the row have.
pub fn planes_end(g: Place, r: Region) -> usize
    ensures { result ≡ min (r.plane + r.planes) g.planes }
{
    row_select::plane_end(r.plane, r.planes, g.planes as usize)
}

// Whether a row of len samples has any of the region's: a plane, a column, the first of that column's samples, and the
// row itself. The row's pitch is asked last, since it may take a division.
pub fn touched(g: Place, r: Region, start: Start, len: usize) -> bool
    requires { RowFits g.x0 g.planes g.y len × First r.left r.col_pitch g.x0 start.col start.nth }
    ensures { (result ≡ true → selects r.top r.bottom r.row_pitch g.y ≡ true) × (result ≡ false → Untouched g r len) }
{
    if planes_end(g, r) <= r.plane as usize {
        return false;
    }
    if r.right as usize <= g.x0 as usize + start.col {
        return false;
    }
    if len <= start.col * g.planes as usize + r.plane as usize {
        return false;
    }
    row_select::row_selected(r.top, r.bottom, r.row_pitch, g.y as usize)
}

// The planes of a region, one after another: `one` is lent the row with each plane's walk.
pub fn each_plane<T: Copy, F: Fn(&mut [T], Walk)>(
    row: &mut [T],
    g: Place,
    r: Region,
    start: Start,
    one: F,
)
    requires fits { RowFits g.x0 g.planes g.y (length row.old) × First r.left r.col_pitch g.x0 start.col
        start.nth }
    requires calls { Takes r (F.pre one) }
    ensures { (h : ℕ → ℕ → T → T) → Does r (F.post one) h
        → row.new ≡ region_planes g r r.planes h row.old }
{
    for p in r.plane as usize..planes_end(g, r) {
        one(row, walk_at(g, r, start, p));
    }
}

fn region_row(row: &mut [f32], g: Place, a: Area, body: &[u8], scale: f32)
    requires { RowFits g.x0 g.planes g.y (length row.old) × First a.region.left a.region.col_pitch g.x0
        a.start.col a.start.nth
        × (task_fits a.task ≡ true) }
    ensures { row.new
        ≡ each
        (on_row g.x0 g.planes g.y (length row.old)
        (on_region a.region
        (task_rule (frame_at scale g.full_width g.full_height) a.region body.now a.task)))
        row.old }
{
    let r = a.region;
    let t = a.task;
    if touched(g, r, a.start, row.len()) {
        let v = axis_of(t, g);
        let d = value_of(t, r, g.y, body, scale);
        each_plane(row, g, r, a.start, move |part, k| {
            one_plane(part, k, r, t, g, v, d, body, scale)
        });
    }
}

// One opcode on one row. What the opcode is was worked out by `prepare`; `op` stands here for the contract alone.
pub fn row_step(row: &mut [f32], g: Place, op: Opcode, ready: Prepared, body: &[u8], scale: f32)
    requires { RowFits g.x0 g.planes g.y (length row.old) × (bounded op ≡ true)
        × Ready op g.x0 g.full_width g.full_height ready }
    ensures { row.new
        ≡ each
        (on_row g.x0 g.planes g.y (length row.old)
        (rule_of (frame_at scale g.full_width g.full_height) op body.now))
        row.old }
{
    match ready {
        Prepared::Nothing => {}
        Prepared::Vignette { radial, m2 } => {
            row_vignette::vignette_row(
                row,
                radial,
                m2,
                g.x0,
                g.planes,
                g.y,
                g.full_width,
                g.full_height,
            )
        }
        Prepared::Area(a) => region_row(row, g, a, body, scale),
    }
}

// ---- a row of whole numbers: tables alone

// How many entries a task's table has. What is no table has none, and an empty table changes nothing.
fn table_size(t: Task) -> u32
    ensures { result ≡ table_size t }
{
    match t {
        Task::Table { n } => n,
        Task::Polynomial { .. } => 0,
        Task::Gain { .. } => 0,
        Task::DeltaRows { .. } => 0,
        Task::DeltaColumns { .. } => 0,
        Task::ScaleRows { .. } => 0,
        Task::ScaleColumns { .. } => 0,
    }
}

fn table_plane16(row: &mut [u16], k: Walk, body: &[u8], n: u32)
    requires { Walks k (length row.old) }
    ensures { row.new ≡ walked k (λ x p v. cond (eqb n 0) v (map_table16 n body.now v))
        row.old }
{
    if 0 < n {
        row_tables::table_row16(row, k, body, n);
    }
}

// No planes share what a region_row works out for them.
fn region_row16(row: &mut [u16], g: Place, a: Area, body: &[u8])
    requires { RowFits g.x0 g.planes g.y (length row.old) × First a.region.left a.region.col_pitch g.x0
        a.start.col a.start.nth }
    ensures { let n = table_size a.task in row.new
        ≡ each
        (on_row g.x0 g.planes g.y (length row.old)
        (on_region a.region (λ y x k v. cond (eqb n 0) v (map_table16 n body.now v))))
        row.old }
{
    if touched(g, a.region, a.start, row.len()) {
        let n = table_size(a.task);
        each_plane(row, g, a.region, a.start, move |part, k| {
            table_plane16(part, k, body, n)
        });
    }
}

// One opcode on one row of whole numbers; `op` stands here for the contract alone. Not one function with row_step: the
// paper's `rule16_of` has tables alone, and no scale.
pub fn row_step16(row: &mut [u16], g: Place, op: Opcode, ready: Prepared, body: &[u8])
    requires { RowFits g.x0 g.planes g.y (length row.old) × Ready op g.x0 g.full_width g.full_height
        ready }
    ensures { row.new
        ≡ each (on_row g.x0 g.planes g.y (length row.old) (rule16_of op body.now))
        row.old }
{
    match ready {
        Prepared::Nothing => {}
        Prepared::Vignette { .. } => {}
        Prepared::Area(a) => region_row16(row, g, a, body),
    }
}
