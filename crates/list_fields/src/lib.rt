// The fields of a body and the records made of them. Positions are those of the whole list: a field k bytes into a body
// that starts at `at` stands at `at + k`. A field past the list's end is 0, so every function takes any position.
// Of a body of `len` bytes a reader answers what it reads, or the offset of the first field that is not whole.
#![tactic(auto)]

ghost use Rattle.std.specs.Prelude.{◌≡◌, ◌+◌};
ghost use Rattle.dng.specs.List.{offset_in, u32_at, f64_at, region_at, grid_at, radial_at};
ghost use Rattle.list_fields.specs.Fields.{word_at, area_at, lattice_at, lens_at};

use dng::{Grid, Radial, Region};
use num_words::Cut;

// ---- fields

// The position of a field, or the list's end where the field starts past it: the sum cannot wrap.
pub fn place(list: &[u8], at: usize, k: usize) -> usize
    ensures { result ≡ offset_in list.now at k }
{
    let n = list.len();
    if n <= at {
        return n;
    }
    if n - at <= k {
        return n;
    }
    at + k
}

pub fn word(list: &[u8], at: usize, k: usize) -> u32
    ensures { result ≡ u32_at list.now (at + k) }
{
    num_words::u32_at(list, place(list, at, k))
}

pub fn real(list: &[u8], at: usize, k: usize) -> f64
    ensures { result ≡ f64_at list.now (at + k) }
{
    num_words::f64_at(list, place(list, at, k))
}

// ---- records, each from where it starts in its body

fn region(list: &[u8], at: usize) -> Region
    ensures { result ≡ region_at list.now at }
{
    Region {
        top: word(list, at, 0),
        left: word(list, at, 4),
        bottom: word(list, at, 8),
        right: word(list, at, 12),
        plane: word(list, at, 16),
        planes: word(list, at, 20),
        row_pitch: word(list, at, 24),
        col_pitch: word(list, at, 28),
    }
}

// A gain map's, 40 bytes into its body.
fn grid(list: &[u8], at: usize) -> Grid
    ensures { result ≡ grid_at list.now (at + 40) }
{
    Grid {
        spacing_v: real(list, at, 40),
        spacing_h: real(list, at, 48),
        origin_v: real(list, at, 56),
        origin_h: real(list, at, 64),
    }
}

fn radial(list: &[u8], at: usize) -> Radial
    ensures { result ≡ radial_at list.now at }
{
    Radial {
        k0: real(list, at, 0),
        k1: real(list, at, 8),
        k2: real(list, at, 16),
        k3: real(list, at, 24),
        k4: real(list, at, 32),
        cx: real(list, at, 40),
        cy: real(list, at, 48),
    }
}

// ---- fields and records of a body of `len` bytes
// A record of fields of one size asks for its length once: the first field that is not whole starts at the last
// multiple of that size.

pub fn word_in(list: &[u8], at: usize, k: usize, len: usize) -> Result<u32, Cut>
    ensures { result ≡ word_at list.now at k len }
{
    num_words::u32_in(list, place(list, at, k), num_words::less(len, k))
}

pub fn region_in(list: &[u8], at: usize, len: usize) -> Result<Region, Cut>
    ensures { result ≡ area_at list.now at len }
{
    if len < 32 {
        Err(Cut {
            at: place(list, at, len / 4 * 4),
        })
    } else {
        Ok(region(list, at))
    }
}

pub fn grid_in(list: &[u8], at: usize, len: usize) -> Result<Grid, Cut>
    ensures { result ≡ lattice_at list.now at len }
{
    if len < 72 {
        Err(Cut {
            at: place(list, at, 40 + num_words::less(len, 40) / 8 * 8),
        })
    } else {
        Ok(grid(list, at))
    }
}

pub fn radial_in(list: &[u8], at: usize, len: usize) -> Result<Radial, Cut>
    ensures { result ≡ lens_at list.now at len }
{
    if len < 56 {
        Err(Cut {
            at: place(list, at, len / 8 * 8),
        })
    } else {
        Ok(radial(list, at))
    }
}
