// Black level before list 2 (document 02, M-109): from each sample the black of its image position is taken, and the
// rest is scaled. A row of one plane under a pattern of one or two columns, as a Bayer image has it, goes by pairs of
// samples, which compiles to vector code. Any other goes by the samples that share an entry of the pattern: they lie as
// many samples apart as a row of the pattern has with all its planes.
#![tactic(auto)]

ghost use Rattle.std.specs.Prelude.{◌≡◌, true, ◌&&◌, ℕ, ◌+◌, ◌*◌, ◌/◌, ◌%◌, ◌≤◌, ◌<◌, eqb, leb, Float, length, get_or};
ghost use Rattle.std.specs.Float.{nan};
ghost use Rattle.pointwise.specs.Points.{each};
ghost use Rattle.row_black.specs.Black.{
  levels_in,
  with_delta,
  levelled_by,
  levelled_at,
  total,
  field_in_range,
  samples_in,
  holds,
  tabled,
  sampled,
  answer_of,
  number_of,
  black_out,
  Levelled,
};
ghost use Rattle.row_black.specs.Rows.{
  level_in,
  settled_at,
  spot_at,
  own_delta,
  only,
  PairAt,
  step_rule,
  row_rule,
  Placed,
  RowLent,
  Stepped,
};

use dng::Window;
use sample::Sample;

// The frame: `width` by `height` pixels of `planes` samples, rows without gaps, its corner at (x0, y0) of the image.
#[repr(C)]
#[derive(Clone, Copy)]
pub struct Field {
    pub width: usize,
    pub height: usize,
    pub planes: usize,
    pub x0: usize,
    pub y0: usize,
}

// The size of the pattern of black and scale, which starts at the image's corner.
#[repr(C)]
#[derive(Clone, Copy)]
pub struct Pattern {
    pub height: usize,
    pub width: usize,
}

// What is lent besides the samples: the pattern's size, its tables of black and of scale, and the deltas of the image's
// rows and columns.
#[derive(Clone, Copy)]
pub struct Lent<'a> {
    pub pattern: Pattern,
    pub blacks: &'a [f32],
    pub scales: &'a [f32],
    pub rows: &'a [f32],
    pub columns: &'a [f32],
}

// Why a call is refused. The paper's number of each case: `number_of` in specs/Black.
#[derive(Clone, Copy)]
pub enum Refused {
    Range,
    Tables,
    Samples,
}

// The image row y from image column x on, with the pattern's line and column there.
#[derive(Clone, Copy)]
struct Row<'a> {
    lent: Lent<'a>,
    planes: usize,
    x: usize,
    y: usize,
    line: usize,
    first: usize,
    ghost placed: { Placed lent.pattern planes x y line first (length lent.blacks.now) (length lent.scales.now) },
}

// Where a sample of a row stands: its plane, its image column, and the pattern's column.
#[derive(Clone, Copy)]
pub struct Spot {
    pub plane: usize,
    pub column: usize,
    pub entry: usize,
}

// What a sample is levelled by.
#[derive(Clone, Copy)]
pub struct Level {
    pub black: f32,
    pub scale: f32,
}

// ---- a sample

// A NaN is not above 0, and so becomes 0.
fn take_black(v: f32, black: f32, scale: f32) -> f32
    ensures { result ≡ levelled_by black scale v }
{
    let r = (v - black) * scale;
    if 0.0 < r { r } else { 0.0 }
}

fn with_delta(deltas: &[f32], i: usize, b: f32) -> f32
    ensures { result ≡ with_delta deltas.now i b }
{
    if deltas.len() == 0 {
        return b;
    }
    if i < deltas.len() {
        b + deltas[i]
    } else {
        b + 0.0
    }
}

impl Row<'_> {
    // The level of plane k in the pattern's column c, before the column's delta.
    fn level_at(&self, k: usize, c: usize) -> Level
        requires { (k < self.now.planes) × (c < self.now.lent.pattern.width) }
        ensures { result
            ≡ level_in self.now.lent.pattern self.now.lent.blacks.now self.now.lent.scales.now
            self.now.lent.rows.now self.now.y c k }
    {
        let p = self.lent.pattern;
        let at = (k * p.height + self.line) * p.width + c;
        Level {
            black: with_delta(self.lent.rows, self.y, self.lent.blacks[at]),
            scale: self.lent.scales[at],
        }
    }
}

// A level with the delta of image column x.
fn settled(a: Level, columns: &[f32], x: usize) -> Level
    ensures { result ≡ settled_at columns.now x a }
{
    Level {
        black: with_delta(columns, x, a.black),
        scale: a.scale,
    }
}

// ---- where a sample stands, counted and not divided

// The place after i, of n that come again and again.
fn after(i: usize, n: usize) -> usize
    requires { i < n }
    ensures { (k : ℕ) → i ≡ k % n → result ≡ (k + 1) % n }
{
    if i + 1 < n { i + 1 } else { 0 }
}

// The place after s, in a row of so many planes under a pattern so wide.
fn next(s: Spot, planes: usize, width: usize) -> Spot
    requires { (s.plane < planes) × (s.entry < width) × (s.column < 4294967296) }
    ensures { (x0 i : ℕ) → s ≡ spot_at planes width x0 i → result ≡ spot_at planes width x0 (i + 1) }
{
    if s.plane + 1 < planes {
        return Spot {
            plane: s.plane + 1,
            column: s.column,
            entry: s.entry,
        };
    }
    Spot {
        plane: 0,
        column: s.column + 1,
        entry: after(s.entry, width),
    }
}

// Whether samples two apart share an entry of the pattern.
fn is_paired(p: Pattern, planes: usize) -> bool
    ensures { result ≡ eqb planes 1 && leb p.width 2 }
{
    (planes == 1) & (p.width <= 2)
}

// ---- a row of samples

// By two levels, that of even places and that of odd ones; `black` is the black of a place. A loop with no branch: vector
// code, which zipped `chunks_exact` are not.
fn pairs<S: Sample, F: Fn(usize, f32) -> f32>(
    input: &[S],
    out: &mut [f32],
    even: Level,
    odd: Level,
    black: F,
)
    requires long { length out.old ≤ length input.now }
    requires callable { (j : ℕ) → j < length out.old → F.pre black j even.black × F.pre black j odd.black }
    ensures { (j : ℕ)
        → j < length out.old
        → PairAt S.none S.to_float input.now (F.post black) even odd j (get_or out.new j nan) }
{
    let n = out.len();
    for k in 0..n / 2 {
        let j = 2 * k;
        let v = take_black(input[j].to_f32(), black(j, even.black), even.scale);
        let w = take_black(input[j + 1].to_f32(), black(j + 1, odd.black), odd.scale);
        out[j] = v;
        out[j + 1] = w;
    }
    if n % 2 == 0 {
        return;
    }
    let end = n - 1;
    out[end] = take_black(input[end].to_f32(), black(end, even.black), even.scale);
}

// The samples from `from` on that lie `step` apart, one level for all; their columns lie `pitch` apart, from image
// column x on. With `step_by` a sample costs three instructions more, and the column is counted all the same.
fn strides<S: Sample>(
    input: &[S],
    out: &mut [f32],
    from: usize,
    step: usize,
    a: Level,
    columns: &[f32],
    x: usize,
    pitch: usize,
)
    requires { Stepped from step pitch x (length out.old) × (length out.old ≤ length input.now) }
    ensures { out.new
        ≡ each
        (only (λ j. eqb (j % step) from)
        (step_rule S.none S.to_float input.now a columns.now x pitch step))
        out.old }
{
    let n = out.len();
    let mut j = from;
    let mut c = x;
    // not `step_by`, which takes three instructions more a sample
    while j < n {
        out[j] = take_black(input[j].to_f32(), with_delta(columns, c, a.black), a.scale);
        j += step;
        c += pitch;
    }
}

// One after another, from each place of the first period of the row, or from each sample of a row that is shorter. The
// row comes by value: behind a reference its lists are tested again for each walk.
fn all_strides<S: Sample>(input: &[S], out: &mut [f32], row: Row)
    requires { RowLent (length out.old) (length input.now) }
    ensures { out.new
        ≡ each
        (λ j v. row_rule S.none S.to_float input.now
        (levels_in row.entry.lent) row.entry.planes row.entry.x row.entry.y j)
        out.old }
{
    let n = out.len();
    let width = row.lent.pattern.width;
    let step = (width * row.planes).min(n);
    let pitch = width.min(n);
    let mut s = Spot {
        plane: 0,
        column: row.x,
        entry: row.first,
    };
    for i in 0..step {
        let a = row.level_at(s.plane, s.entry);
        strides(input, out, i, step, a, row.lent.columns, s.column, pitch);
        s = next(s, row.planes, width);
    }
}

// One row. Pairs serve where every column has a delta of its own, or none.
fn one_row<S: Sample>(input: &[S], out: &mut [f32], row: Row)
    requires { RowLent (length out.old) (length input.now) }
    ensures { out.new
        ≡ each
        (λ j v. row_rule S.none S.to_float input.now
        (levels_in row.entry.lent) row.entry.planes row.entry.x row.entry.y j)
        out.old }
{
    let p = row.lent.pattern;
    let columns = row.lent.columns;
    if is_paired(p, row.planes) {
        let even = row.level_at(0, row.first);
        let odd = row.level_at(0, after(row.first, p.width));
        if columns.len() <= row.x {
            let (even, odd) = (
                settled(even, columns, row.x),
                settled(odd, columns, row.x + 1),
            );
            pairs(input, out, even, odd, |_, b| b);
            return;
        }
        let end = row.x + out.len();
        if end <= columns.len() {
            let deltas = &columns[row.x..end];
            let black = |j: usize, b: f32| -> f32
                requires { j < length deltas.now }
                ensures { result ≡ own_delta deltas.entry.now j b }
            { b + deltas[j] };
            pairs(input, out, even, odd, black);
            return;
        }
    }
    all_strides(input, out, row);
}

// Row by row, each lent from its own start. The pattern's line is counted, not divided for.
fn all_rows<S: Sample>(input: &[S], out: &mut [f32], f: Field, lent: Lent)
    requires { answer_of f lent.pattern (length lent.blacks.now) (length lent.scales.now) (length input.now)
        (length out.old)
        ≡ Ok tt }
    ensures { out.new
        ≡ each
        (levelled_at S.none S.to_float f
        (levels_in lent.entry)
        input.now)
        out.old }
{
    let n = f.width * f.planes;
    let first = f.x0 % lent.pattern.width;
    let mut line = f.y0 % lent.pattern.height;
    for y in 0..f.height {
        let at = y * n;
        let end = at + n;
        let row = Row {
            lent,
            planes: f.planes,
            x: f.x0,
            y: f.y0 + y,
            line,
            first,
        };
        one_row(&input[at..end], &mut out[at..end], row);
        line = after(line, lent.pattern.height);
    }
}

// ---- what is refused, before a sample moves

fn in_range(f: Field) -> bool
    ensures { result ≡ field_in_range f }
{
    (f.width <= Window::MAX_SIZE)
        & ((f.height <= Window::MAX_SIZE)
            & ((1 <= f.planes)
                & ((f.planes <= Window::MAX_PLANES)
                    & ((f.x0 <= Window::MAX_PLACE) & (f.y0 <= Window::MAX_PLACE)))))
}

// By quotients: the product of the pattern's sizes can pass 64 bits.
fn fits(p: Pattern, planes: usize, n: usize) -> bool
    requires { (1 ≤ planes) × (1 ≤ p.width) }
    ensures { result ≡ holds p planes n }
{
    if p.height <= n / p.width {
        p.height * p.width <= n / planes
    } else {
        false
    }
}

fn has_tables(p: Pattern, planes: usize, blacks: usize, scales: usize) -> bool
    requires { 1 ≤ planes }
    ensures { result ≡ tabled p planes blacks scales }
{
    if p.height < 1 {
        return false;
    }
    if p.width < 1 {
        return false;
    }
    fits(p, planes, blacks) & fits(p, planes, scales)
}

fn total_of(f: Field) -> usize
    requires { field_in_range f ≡ true }
    ensures { result ≡ total f }
{
    f.width * f.height * f.planes
}

// How many samples a frame has, none if it is out of range: its product could wrap.
pub fn samples_of(f: Field) -> usize
    ensures { result ≡ samples_in f }
{
    if in_range(f) { total_of(f) } else { 0 }
}

fn has_samples(f: Field, input: usize, output: usize) -> bool
    requires { field_in_range f ≡ true }
    ensures { result ≡ sampled f input output }
{
    let n = total_of(f);
    (n <= input) & (n <= output)
}

// 1, 60, 61, in that order: what a call answers, by the lengths of what it is lent.
pub fn answer(
    f: Field,
    p: Pattern,
    blacks: usize,
    scales: usize,
    input: usize,
    output: usize,
) -> Result<(), Refused>
    ensures { result ≡ answer_of f p blacks scales input output }
{
    if !in_range(f) {
        return Err(Refused::Range);
    }
    if !has_tables(p, f.planes, blacks, scales) {
        return Err(Refused::Tables);
    }
    if !has_samples(f, input, output) {
        return Err(Refused::Samples);
    }
    Ok(())
}

// Document 02's number of an answer.
pub fn number(a: Result<(), Refused>) -> u32
    ensures { result ≡ number_of a }
{
    match a {
        Ok(()) => 0,
        Err(Refused::Range) => 1,
        Err(Refused::Tables) => 60,
        Err(Refused::Samples) => 61,
    }
}

// ---- a frame

// Takes the black from samples, for every field, pattern, table and buffer.
pub fn black<S: Sample>(input: &[S], out: &mut [f32], f: Field, lent: Lent) -> Result<(), Refused>
    ensures { Levelled
        (black_out S.none S.to_float f
        (levels_in lent.entry)
        input.now out.old)
        result out.new }
{
    let (blacks, scales) = (lent.blacks.len(), lent.scales.len());
    answer(f, lent.pattern, blacks, scales, input.len(), out.len())?;
    all_rows(input, out, f, lent);
    Ok(())
}
