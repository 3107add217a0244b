// The tests of a body's counts: whether what they count lies inside the body. Each compares with what the body has
// left, so that no sum can wrap. The body starts at `at` of the list and is `len` bytes long.
#![tactic(auto)]

ghost use Rattle.std.specs.Prelude.{◌≡◌, ◌+◌, max};
ghost use Rattle.dng.specs.List.{u32_at};
ghost use Rattle.list_counts.specs.Fits.{warp_fits, bad_list_fits, values_fit, degree_fits, gains_fit, gains_at};

use dng::Opcode;

pub fn warp_fits(list: &[u8], at: usize, len: usize) -> bool
    ensures { result ≡ warp_fits (u32_at list.now at) len }
{
    let n = list_fields::word(list, at, 0) as usize;
    if len < 4 {
        return false;
    }
    if n < 1 {
        return false;
    }
    if 4 < n {
        return false;
    }
    if len - 4 < (6 * n + 2) * 8 {
        return false;
    }
    true
}

pub fn bad_list_fits(list: &[u8], at: usize, len: usize) -> bool
    ensures { result ≡ bad_list_fits (u32_at list.now (at + 4)) (u32_at list.now (at + 8)) len }
{
    let np = list_fields::word(list, at, 4) as usize;
    let nr = list_fields::word(list, at, 8) as usize;
    if len < 12 {
        return false;
    }
    if len - 12 < 8 * np + 16 * nr {
        return false;
    }
    true
}

// n values of `size` bytes after a region and n.
pub fn values_fit(list: &[u8], at: usize, len: usize, size: u32) -> bool
    ensures { result ≡ values_fit size (u32_at list.now (at + 32)) len }
{
    let n = list_fields::word(list, at, 32) as usize;
    if len < 36 {
        return false;
    }
    if (Opcode::MAX_ELEMENTS as usize) < n {
        return false;
    }
    if len - 36 < size as usize * n {
        return false;
    }
    true
}

pub fn degree_fits(list: &[u8], at: usize, len: usize) -> bool
    ensures { result ≡ degree_fits (u32_at list.now (at + 32)) len }
{
    let d = list_fields::word(list, at, 32) as usize;
    if len < 36 {
        return false;
    }
    if (Opcode::MAX_DEGREE as usize) < d {
        return false;
    }
    if len - 36 < 8 * (d + 1) {
        return false;
    }
    true
}

// Map planes of 0 count as 1.
fn planes_of(m: u32) -> usize
    ensures { result ≡ max m 1 }
{
    if m == 0 { 1 } else { m as usize }
}

// v·h is at most (2^32 - 1)^2. Where it passes the limit, so does the product with the planes, which might not fit 64
// bits.
pub fn gains_fit(list: &[u8], at: usize, len: usize) -> bool
    ensures { result ≡ gains_fit (gains_at list.now at) len }
{
    let v = list_fields::word(list, at, 32) as usize;
    let h = list_fields::word(list, at, 36) as usize;
    let planes = planes_of(list_fields::word(list, at, 72));
    if len < 76 {
        return false;
    }
    let points = v * h;
    if (Opcode::MAX_ELEMENTS as usize) < points {
        return false;
    }
    let total = points * planes;
    if total < 1 {
        return false;
    }
    if (Opcode::MAX_ELEMENTS as usize) < total {
        return false;
    }
    if len - 76 < 4 * total {
        return false;
    }
    true
}
