// Radial gain, on a lent row.
#![tactic(auto)]

ghost use Rattle.std.specs.Prelude.{◌≡◌, ◌+◌, ◌*◌, ◌≤◌, ◌<◌, min, length, Float};
ghost use Rattle.std.specs.Float.Ieee.{mul};
ghost use Rattle.std.specs.Float.{binary32};
ghost use Rattle.pointwise.specs.Points.{each, between};
ghost use Rattle.dng.specs.Select.{on_row};
ghost use Rattle.dng.specs.Bounds.{RowFits};
ghost use Rattle.dng.specs.Value.{apart, larger, farthest, m2_of, vignette};
ghost use Rattle.row_vignette.specs.Reach.{frame_at, reach_of, Reaches};
ghost use Rattle.row_vignette.specs.Rows.{wide_gain, wide_at, raised_by, whole_ones};

use dng::Radial;

// ---- m2, once for a run

fn distance2(cx: f64, cy: f64, x: f64, y: f64) -> f64
    ensures { result ≡ apart cx cy x y }
{
    let dx = x - cx;
    let dy = y - cy;
    dx * dx + dy * dy
}

// A NaN is passed over: `a` stays where `b` is one.
fn larger_of(a: f64, b: f64) -> f64
    ensures { result ≡ larger a b }
{
    if a < b { b } else { a }
}

fn farthest_corner(cx: f64, cy: f64, fw: f64, fh: f64) -> f64
    ensures { result ≡ farthest cx cy fw fh }
{
    let top = larger_of(
        larger_of(0.0, distance2(cx, cy, 0.0, 0.0)),
        distance2(cx, cy, fw, 0.0),
    );
    larger_of(
        larger_of(top, distance2(cx, cy, 0.0, fh)),
        distance2(cx, cy, fw, fh),
    )
}

fn usable_only(m: f64) -> Option<f64>
    ensures { result ≡ reach_of m }
{
    if 0.0 < m {
        if m < f64::INFINITY {
            return Some(m);
        }
    }
    None
}

// The squared distance from the centre to the farthest corner. None where it is not above 0 or not finite: the opcode
// has no effect.
pub fn m2(q: Radial, full_width: u32, full_height: u32) -> Option<f64>
    ensures { (scale : Float) → result ≡ reach_of (m2_of (frame_at scale full_width full_height) q) }
{
    let fw = num_convert::f64_of_u32(full_width);
    let fh = num_convert::f64_of_u32(full_height);
    usable_only(farthest_corner(q.cx * fw, q.cy * fh, fw, fh))
}

// ---- a row

// What the pixels of a row have in common: the opcode's numbers, m2, dy², and the column of the centre.
#[derive(Clone, Copy)]
struct Line {
    radial: Radial,
    m2: f64,
    dy2: f64,
    centre: f64,
}

impl Line {
    // The gain of a pixel that lies dx from the centre along the row, before it is narrowed.
    fn wide_gain(self, dx: f64) -> f64
        ensures { result ≡ wide_gain self dx }
    {
        let q = self.radial;
        let r2 = (dx * dx + self.dy2) / self.m2;
        1.0 + r2 * (q.k0 + r2 * (q.k1 + r2 * (q.k2 + r2 * (q.k3 + r2 * q.k4))))
    }

    // The gain of each pixel from column x0 on. A loop with no branch, and with a column that is counted anew for each:
    // vector code.
    fn wide_gains(self, x0: u32, gains: &mut [f64])
        requires { x0 + length gains.old < 4294967296 }
        ensures { gains.new ≡ each (wide_at self x0) gains.old }
    {
        for (j, g) in gains.iter_mut().enumerate() {
            *g = self.wide_gain(num_convert::f64_of_u32(x0 + j as u32) - self.centre);
        }
    }
}

// The samples of one pixel.
fn raise_pixel(pixel: &mut [f32], g: f32)
    ensures { pixel.new ≡ each (λ i v. mul binary32 v g) pixel.old }
{
    for v in pixel {
        *v *= g;
    }
}

// A gain to each pixel from sample a on. In line: the count of planes is a number there, and the samples of a pixel are
// raised with no loop.
#[inline(always)]
fn raise_pixels(row: &mut [f32], a: usize, gains: &[f64], planes: usize)
    requires { a + length gains.now * planes ≤ length row.old }
    ensures { row.new ≡ each (raised_by gains.now a planes) row.old }
{
    for (j, g) in gains.iter().enumerate() {
        let i = a + j * planes;
        raise_pixel(&mut row[i..i + planes], num_narrow::to_f32(*g));
    }
}

// The common cases, one plane and three, have loops of their own.
fn raise_block(row: &mut [f32], a: usize, gains: &[f64], planes: usize)
    requires { a + length gains.now * planes ≤ length row.old }
    ensures { row.new ≡ each (raised_by gains.now a planes) row.old }
{
    match planes {
        1 => raise_pixels(row, a, gains, 1),
        3 => raise_pixels(row, a, gains, 3),
        _ => raise_pixels(row, a, gains, planes),
    }
}

// Block by block: the gains of all its pixels, and then the samples. A pixel that is not whole stays. What is asked of
// the row's number is no matter here.
fn raise_row(row: &mut [f32], line: Line, x0: u32, planes: u32)
    requires { RowFits x0 planes 0 (length row.old) }
    ensures { row.new ≡ each (whole_ones line x0 planes (length row.old)) row.old }
{
    let mut gains = [0.0; 64];
    let p = planes as usize;
    let pixels = row.len() / p;
    for done in (0..pixels).step_by(64) {
        let n = (pixels - done).min(64);
        line.wide_gains(x0 + done as u32, &mut gains[..n]);
        raise_block(row, done * p, &gains[..n], p);
    }
}

// Every whole pixel of the row y, all planes; `m2` is what the function of that name answered for the run.
pub fn vignette_row(
    row: &mut [f32],
    q: Radial,
    m2: f64,
    x0: u32,
    planes: u32,
    y: u32,
    full_width: u32,
    full_height: u32,
)
    requires { RowFits x0 planes y (length row.old) × Reaches q m2 full_width full_height }
    ensures { (scale : Float)
        → row.new
        ≡ each
        (on_row x0 planes y (length row.old) (vignette (frame_at scale full_width full_height) q))
        row.old }
{
    if full_height <= y {
        return;
    }
    let centre = q.cx * num_convert::f64_of_u32(full_width);
    let dy = num_convert::f64_of_u32(y) - q.cy * num_convert::f64_of_u32(full_height);
    let line = Line {
        radial: q,
        m2,
        dy2: dy * dy,
        centre,
    };
    raise_row(row, line, x0, planes);
}
