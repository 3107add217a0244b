// The positions of a window, and where their samples lie; those whose plane 0 equals a constant, in the u32 scratch.
#![tactic(auto)]

ghost use Rattle.std.specs.Prelude.{◌≡◌, true, false, ℕ, ◌+◌, ◌*◌, ◌/◌, ◌%◌, ◌^◌, ◌≤◌, ◌<◌, length, get_or};
ghost use Rattle.dng.specs.Repair.{positions, bad_value};
ghost use Rattle.fix_scratch.specs.Marks.{Fits, Gathered};
ghost use Rattle.fix_constant.specs.Parts.{Pixel, Finds, Whole, Part, Keeps, Before, Clear, same};

use dng::Window;
use sample::Sample;

// A position's column and row.
#[derive(Clone, Copy)]
pub struct Spot {
    pub x: usize,
    pub y: usize,
}

// Where the sample of a plane lies.
pub fn place(w: Window, x: usize, y: usize, plane: usize) -> usize
    requires { Pixel w x y × (plane < w.planes) }
    ensures { result ≡ (y * w.stride + x) * w.planes + plane }
{
    (y * w.stride + x) * w.planes + plane
}

// A pixel's position. Any window's are below 2^32.
pub fn position(w: Window, x: usize, y: usize) -> u32
    requires { Pixel w x y }
    ensures { result ≡ y * w.width + x }
{
    (y * w.width + x) as u32
}

// A width's reciprocal, in parts of 2^32.
pub fn reciprocal(w: Window) -> usize
    requires { Fits w }
    ensures { result ≡ 2 ^ 32 / w.width }
{
    4294967296 / w.width
}

// How many rows of `width` positions lie before q, by the width's reciprocal m: the product is the row or one less, so
// that no division is taken for a mark.
fn row_of(q: usize, width: usize, m: usize) -> usize
    requires { (1 ≤ width) × ((q < 2 ^ 32) × (m ≡ 2 ^ 32 / width)) }
    ensures { result ≡ q / width }
{
    let e = q * m / 4294967296;
    if q - e * width < width { e } else { e + 1 }
}

// Where mark i lies.
pub fn spot_of(marks: &[u32], i: usize, w: Window, m: usize) -> Spot
    requires { Finds marks.now i w m }
    ensures { (result.x ≡ get_or marks.now i 0 % w.width)
        × (result.y ≡ get_or marks.now i 0 / w.width) }
{
    let q = marks[i] as usize;
    let y = row_of(q, w.width, m);
    let x = q - y * w.width;
    Spot { x, y }
}

// Where the sample that is compared lies: plane 0 alone says whether a position is marked.
fn tested(w: Window, x: usize, y: usize) -> usize
    requires { Pixel w x y }
    ensures { result ≡ (y * w.stride + x) * w.planes + 0 }
{
    place(w, x, y, 0)
}

// A position behind the first n, where there is room for it; how many they are then.
fn keep(marks: &mut [u32], n: usize, q: u32) -> Option<usize>
    ensures { Keeps marks.old marks.new n q result }
{
    if n < marks.len() {
        marks[n] = q;
        return Some(n + 1);
    }
    None
}

// ---- the scan, of either sample kind

// Whether any sample equals k. It stops nowhere, so that many samples are tested at once.
fn any<S: Sample>(s: &[S], k: S) -> bool
    ensures { result ≡ false → (i : ℕ) → i < length s.now → S.eq (get_or s.now i S.none) k ≡ false }
{
    let mut hit = false;
    for v in s {
        hit |= *v == k;
    }
    hit
}

// A window's samples, and the one that they are compared with.
#[derive(Drop)]
struct Scan<'a, S> {
    samples: &'a [S],
    w: Window,
    k: S,
    ghost whole: { Whole (length samples.now) w },
}

impl<S: Sample> Scan<'_, S> {
    // Whether columns `from` up to `end` are known to hold no mark: those of a window of one plane lie side by side.
    fn clear(&self, y: usize, from: usize, end: usize) -> bool
        requires { let s = self.now in Part s.w y from end × (from < end) }
        ensures { let s = self.now in result ≡ true → Clear s.w (same S.none S.eq s.w s.k s.samples.now) y from end }
    {
        if self.w.planes == 1 {
            let at = tested(self.w, from, y);
            return !any(&self.samples[at..at + (end - from)], self.k);
        }
        false
    }

    // Columns `from` up to `end` of row y, one by one, behind the n positions that are gathered.
    fn part(&self, y: usize, from: usize, end: usize, marks: &mut [u32], n: usize) -> Option<usize>
        requires { let s = self.now in Part s.w y from end
            × Before s.w (same S.none S.eq s.w s.k s.samples.now) marks.old n y from }
        ensures { let s = self.now in
            Gathered (y * s.w.width + end) (same S.none S.eq s.w s.k s.samples.now) marks.old marks.new result }
    {
        let mut held = n;
        for x in from..end {
            if self.samples[tested(self.w, x, y)] == self.k {
                held = keep(marks, held, position(self.w, x, y))?;
            }
        }
        Some(held)
    }

    // The same, at once where the part is clear.
    fn block(&self, y: usize, from: usize, end: usize, marks: &mut [u32], n: usize) -> Option<usize>
        requires { let s = self.now in Part s.w y from end
            × ((from < end) × Before s.w (same S.none S.eq s.w s.k s.samples.now) marks.old n y from) }
        ensures { let s = self.now in
            Gathered (y * s.w.width + end) (same S.none S.eq s.w s.k s.samples.now) marks.old marks.new result }
    {
        if self.clear(y, from, end) {
            return Some(n);
        }
        self.part(y, from, end, marks, n)
    }

    // Row y, block by block, each of 64 columns or what is left.
    fn row(&self, y: usize, marks: &mut [u32], n: usize) -> Option<usize>
        requires { let s = self.now in (y < s.w.height)
            × Before s.w (same S.none S.eq s.w s.k s.samples.now) marks.old n y 0 }
        ensures { let s = self.now in
            Gathered (y * s.w.width + s.w.width) (same S.none S.eq s.w s.k s.samples.now) marks.old marks.new result }
    {
        let mut held = n;
        let mut from = 0;
        // not by `step_by(64)`: a narrow window's rows, a block each, take half as much time again
        while from < self.w.width {
            let end = self.w.width.min(from + 64);
            held = self.block(y, from, end, marks, held)?;
            from = end;
        }
        Some(held)
    }

    // Row after row.
    fn rows(&self, marks: &mut [u32]) -> Option<usize>
        ensures { let s = self.now in
            Gathered (positions s.w) (same S.none S.eq s.w s.k s.samples.now) marks.old marks.new result }
    {
        let mut held = 0;
        for y in 0..self.w.height {
            held = self.row(y, marks, held)?;
        }
        Some(held)
    }
}

// The positions whose plane 0 equals the constant, ascending: how many they are. None where there are more than the
// scratch has entries.
pub fn constant_marks<S: Sample>(
    samples: &[S],
    w: Window,
    c: S::Constant,
    marks: &mut [u32],
) -> Option<usize>
    requires { Whole (length samples.now) w }
    ensures { Gathered (positions w) (bad_value S.none w (S.equals c) samples.now) marks.old marks.new result }
{
    match S::sought(samples, c) {
        Some(k) => Scan { samples, w, k }.rows(marks),
        None => Some(0),
    }
}
