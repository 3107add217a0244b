// Deltas and scales of rows and columns, on one plane of a lent row.
// What is the same for a whole row, a row's delta or scale, is worked out once by the caller; a loop does what depends
// on the sample.
#![tactic(auto)]

ghost use Rattle.std.specs.Prelude.{◌≡◌, ◌-◌, ◌/◌, length};
ghost use Rattle.std.specs.Float.Ieee.{add, mul, div};
ghost use Rattle.std.specs.Float.{binary32};
ghost use Rattle.row_select.specs.Walks.{walked, Walks};
ghost use Rattle.num_convert.specs.Convert.{whole_in};
ghost use Rattle.dng.specs.Value.{nought, one, nth, delta, scaled};
ghost use Rattle.row_deltas.specs.Bytes.{value_from};

use row_select::{Walk, on_walk};

// ---- a value for the whole row

// DeltaPerRow on a plane: d is the row's delta over the scale. No delta is left out: −0 + 0.0 is +0, and a scale of 0
// gives NaN.
pub fn add_row(row: &mut [f32], k: Walk, d: f32)
    requires { Walks k (length row.old) }
    ensures { row.new ≡ walked k (λ x p v. add binary32 v d) row.old }
{
    on_walk(row, k, move |_, v| v + d);
}

// ScalePerRow on a plane: s is the row's scale.
pub fn scale_row(row: &mut [f32], k: Walk, s: f32)
    requires { Walks k (length row.old) }
    ensures { row.new ≡ walked k (λ x p v. scaled s v) row.old }
{
    on_walk(row, k, move |_, v| v * s);
}

// ---- the values of a body: n big-endian f32 from byte 36 on

fn value_at(body: &[u8], n: u32, i: usize, missing: f32) -> f32
    ensures { result ≡ nth n body.now missing i }
{
    if i < n as usize {
        num_words::f32_at(body, 36 + 4 * i)
    } else {
        missing
    }
}

fn over_scale(d: f32, scale: f32) -> f32
    ensures { result ≡ div binary32 (mul binary32 d (whole_in binary32 65535)) scale }
{
    d * 65535.0 / scale
}

// A row's delta over the scale, for the i-th selected row.
pub fn row_delta(body: &[u8], n: u32, i: usize, scale: f32) -> f32
    ensures { result ≡ div binary32 (mul binary32 (nth n body.now nought i) (whole_in binary32 65535)) scale }
{
    over_scale(value_at(body, n, i, 0.0), scale)
}

// A row's scale, for the i-th selected row.
pub fn row_scale(body: &[u8], n: u32, i: usize) -> f32
    ensures { result ≡ nth n body.now one i }
{
    value_at(body, n, i, 1.0)
}

// ---- a value for each column, by the value's byte position, four bytes a column

// The value at a byte position; past the values, `missing`.
fn value_rare(body: &[u8], at: usize, past: usize, missing: f32) -> f32
    ensures { result ≡ value_from body.now past missing at }
{
    if at < past {
        num_words::f32_at(body, at)
    } else {
        missing
    }
}

// The same, with one comparison where the value is there whole: `sure` is past neither the values nor the last four
// bytes of the body.
fn value_from(body: &[u8], at: usize, past: usize, missing: f32) -> f32
    ensures { result ≡ value_from body.now past missing at }
{
    let sure = past.min(body.len().saturating_sub(3));
    if at < sure {
        num_words::f32_at(body, at)
    } else {
        value_rare(body, at, past, missing)
    }
}

// DeltaPerColumn on a plane.
pub fn add_columns(row: &mut [f32], k: Walk, body: &[u8], n: u32, scale: f32)
    requires { Walks k (length row.old) }
    ensures { row.new
        ≡ walked k (λ x p v. delta scale (nth n body.now nought ((x - k.left) / k.pitch)) v)
        row.old }
{
    let past = 36 + 4 * (n as usize);
    on_walk(
        row,
        k,
        move |j, v| v + over_scale(value_from(body, 36 + 4 * j, past, 0.0), scale),
    );
}

// ScalePerColumn on a plane.
pub fn scale_columns(row: &mut [f32], k: Walk, body: &[u8], n: u32)
    requires { Walks k (length row.old) }
    ensures { row.new
        ≡ walked k (λ x p v. scaled (nth n body.now one ((x - k.left) / k.pitch)) v) row.old }
{
    let past = 36 + 4 * (n as usize);
    on_walk(
        row,
        k,
        move |j, v| v * value_from(body, 36 + 4 * j, past, 1.0),
    );
}
