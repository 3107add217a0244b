// The listed positions of a window. Where it is far taller than wide they are gathered by its columns, of which it has
// few, and then turned.
#![tactic(auto)]

ghost use Rattle.std.specs.Prelude.{◌≡◌, ◌*◌, ◌/◌, ◌^◌, ◌≤◌, ◌<◌};
ghost use Rattle.pointwise.specs.Points.{each};
ghost use Rattle.num_sorted.specs.Sorts.{Distinct};
ghost use Rattle.dng.specs.Repair.{positions};
ghost use Rattle.fix_scratch.specs.Marks.{Gathered, Fits};
ghost use Rattle.fix_listed.specs.Listed.{listed_at};
ghost use Rattle.fix_columns.specs.Columns.{turned, Turns};

use dng::Window;

// A column that begins no later than position q: `from`, or the first.
fn begin(q: usize, height: usize, from: usize) -> usize
    requires { (height ≤ 65536) × (from < 2 ^ 32) }
    ensures { (result * height ≤ q) × (result < 2 ^ 32) }
{
    if from * height <= q { from } else { 0 }
}

// The column of position q, counted by columns; it is looked for from column `from` on, or from the first. Marks
// ascend, so that all of them together take no more steps than there are columns, and nothing is divided.
fn column_of(q: usize, height: usize, from: usize) -> usize
    requires { (1 ≤ height) × (height ≤ 65536) × (q < 2 ^ 32) × (from < 2 ^ 32) }
    ensures { result ≡ q / height }
{
    let mut x = begin(q, height, from);
    // A range of columns would be no plainer: its end is what is looked for.
    while height <= q - x * height {
        x += 1;
    }
    x
}

// Each position, counted by columns, as it is counted by rows.
fn turn(s: &mut [u32], width: usize, height: usize)
    requires { Turns width height s.old }
    ensures { s.new ≡ each (λ i q. turned width height q) s.old }
{
    let mut x = 0;
    for v in s.iter_mut() {
        let q = *v as usize;
        x = column_of(q, height, x);
        *v = ((q - x * height) * width + x) as u32;
    }
}

// Marks that were gathered by columns, by rows and ascending; how many they are.
fn in_order(s: &mut [u32], width: usize, height: usize) -> usize
    requires { Turns width height s.old }
    ensures { Distinct (each (λ i q. turned width height q) s.old) s.new result }
{
    turn(s, width, height);
    num_sorted::pack(s)
}

fn by_columns(body: &[u8], points: u32, rects: u32, w: Window, marks: &mut [u32]) -> Option<usize>
    requires { Fits w }
    ensures { Gathered (positions w) (listed_at w body.now points rects) marks.old
        marks.new result }
{
    let n = fix_listed::gather(body, points, rects, w, marks, true)?;
    Some(in_order(&mut marks[..n], w.width, w.height))
}

// Whether a rectangle may have far more rows than the window has columns.
fn narrow(w: Window, rects: u32) -> bool {
    rects != 0 && w.width < w.height / 16
}

// The listed positions inside the window, each once, ascending at the front of `marks`, and how many they are; or
// nothing: there are more than it has entries.
//
// Cost. A run, which is a point, a row of a rectangle or a rectangle of whole rows, takes a binary search, and one more
// for each stretch of it that the front of the scratch holds; rows are columns here where those are far fewer. Each of
// its other positions is appended, and takes at most five shares of a sort, with a step for each bit of a position, 32
// at most: of what is sorted at least a quarter has been appended since the last time, or a half where room is scarce;
// and once all that is held is sorted besides, at the end or when one entry is left. Where the front holds three
// quarters of the scratch, what it lacks is joined to it in a few steps for each entry: when it takes more than a
// quarter of the room, which happens at most log len / log 4/3 times, or after len entries were sorted. What was
// gathered by columns is turned and sorted once more. So about L·log of the window's size for L positions named, in
// whatever order.
//
// What is named again is appended again until it is joined. Between two joins each of r rectangles appends at most the
// a positions that the second join adds, and all of them at most a few times the marks, or 1,024 if that is more. So n
// rectangles append no more than a few times √n times the marks, or times 1,024, however large they are and however
// they overlap.
pub fn list_marks(
    body: &[u8],
    points: u32,
    rects: u32,
    w: Window,
    marks: &mut [u32],
) -> Option<usize>
    requires { Fits w }
    ensures { Gathered (positions w) (listed_at w body.now points rects) marks.old
        marks.new result }
{
    if narrow(w, rects) {
        by_columns(body, points, rects, w, marks)
    } else {
        fix_listed::gather(body, points, rects, w, marks, false)
    }
}
