// Tables, f32 and u16, on one plane of a lent row.
#![tactic(auto, unfolding(dng::specs::Value::map_table, dng::specs::Value::map_table16))]

ghost use Rattle.std.specs.Prelude.{◌≡◌, ◌+◌, ◌-◌, ◌*◌, ◌≤◌, ◌<◌, min, length};
ghost use Rattle.std.specs.Float.{binary32};
ghost use Rattle.std.specs.Float.Ieee.{mul};
ghost use Rattle.num_round.specs.Whole.{round_held};
ghost use Rattle.num_convert.specs.Convert.{whole_in};
ghost use Rattle.row_select.specs.Walks.{walked, Walks};
ghost use Rattle.dng.specs.Value.{map_table, map_table16, table_at};

use row_select::{Walk, on_spaced, on_walk};

// ---- entries of a table

fn last_of(n: u32) -> u32
    ensures { result ≡ n - 1 }
{
    n.saturating_sub(1)
}

// An entry that may lie across or past the end of the body.
fn entry(body: &[u8], i: u32) -> u16
    ensures { result ≡ table_at body.now i }
{
    num_words::u16_at(body, 36 + 2 * (i as usize))
}

// x, with its bound for the sum below.
fn wide(x: u8) -> u64
    ensures { (result ≡ x) × (result < 256) }
{
    x as u64
}

// An entry of a body that has the whole table, as every body does that was read: one load, no test.
fn full_entry(body: &[u8], i: u32) -> u16
    requires { 38 + 2 * i ≤ length body.now }
    ensures { result ≡ table_at body.now i }
{
    let at = 36 + 2 * (i as usize);
    (wide(body[at]) * 256 + wide(body[at + 1])) as u16
}

// ---- tables, f32

// Which entry a value takes: rounded to whole, half away from zero.
fn index_of(n: u32, scale: f32, v: f32) -> u32
    ensures { result ≡ round_held (n - 1) (mul binary32 v scale) }
{
    num_round::round_held(v * scale, last_of(n))
}

// The same of a table of up to 2^24 entries, with no branch: `top` is the last one's number as a float, worked out once
// a row.
fn index_below(n: u32, top: f32, scale: f32, v: f32) -> u32
    requires { (1 ≤ n) × (n ≤ 16777216) × (top ≡ whole_in binary32 (n - 1)) }
    ensures { result ≡ round_held (n - 1) (mul binary32 v scale) }
{
    num_round::round_below(v * scale, last_of(n), top)
}

fn table_value(body: &[u8], n: u32, scale: f32, v: f32) -> f32
    ensures { result ≡ map_table scale n body.now v }
{
    num_convert::f32_of_u16(entry(body, index_of(n, scale, v))) / scale
}

fn full_value(body: &[u8], n: u32, top: f32, scale: f32, v: f32) -> f32
    requires { (1 ≤ n) × (n ≤ 16777216) × (36 + 2 * n ≤ length body.now) × (top ≡ whole_in binary32 (n - 1)) }
    ensures { result ≡ map_table scale n body.now v }
{
    num_convert::f32_of_u16(full_entry(body, index_below(n, top, scale, v))) / scale
}

// table[round(v * scale)] / scale at the walk's samples.
pub fn table_row(row: &mut [f32], k: Walk, body: &[u8], n: u32, scale: f32)
    requires { (Walks k (length row.old)) × (1 ≤ n) }
    ensures { row.new ≡ walked k (λ x p v. map_table scale n body.now v) row.old }
{
    if n <= 16777216 && 36 + 2 * (n as usize) <= body.len() {
        let top = num_convert::f32_of_u32(last_of(n));
        on_walk(row, k, move |_, v| full_value(body, n, top, scale, v));
    } else {
        // a body that ends before its table does, or a table of more than 2^24 entries, which no reader lets through
        on_walk(row, k, move |_, v| table_value(body, n, scale, v));
    }
}

// ---- tables, u16
// Not one function with f32: document 01 scales and rounds an f32 sample, and holds a whole number as it stands.

fn held_to(v: u16, last: u32) -> u32
    ensures { result ≡ min v last }
{
    (v as u32).min(last)
}

fn table_value16(body: &[u8], n: u32, v: u16) -> u16
    ensures { result ≡ map_table16 n body.now v }
{
    entry(body, held_to(v, last_of(n)))
}

fn full_value16(body: &[u8], n: u32, v: u16) -> u16
    requires { (1 ≤ n) × (36 + 2 * n ≤ length body.now) }
    ensures { result ≡ map_table16 n body.now v }
{
    full_entry(body, held_to(v, last_of(n)))
}

// The same of a table in which every u16 has an entry of its own: there is nothing to hold.
fn whole_value16(body: &[u8], n: u32, v: u16) -> u16
    requires { (65536 ≤ n) × (36 + 2 * n ≤ length body.now) }
    ensures { result ≡ map_table16 n body.now v }
{
    full_entry(body, v as u32)
}

// table[min(v, last)] at the walk's samples.
pub fn table_row16(row: &mut [u16], k: Walk, body: &[u8], n: u32)
    requires { (Walks k (length row.old)) × (1 ≤ n) }
    ensures { row.new ≡ walked k (λ x p v. map_table16 n body.now v) row.old }
{
    if 36 + 2 * (n as usize) <= body.len() {
        if 65536 <= n {
            on_spaced(row, k, move |_, v| whole_value16(body, n, v));
        } else {
            on_spaced(row, k, move |_, v| full_value16(body, n, v));
        }
    } else {
        on_spaced(row, k, move |_, v| table_value16(body, n, v));
    }
}
