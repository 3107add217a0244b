// The listed positions of a repair: points and rectangles of the image, cut to the window, in the u32 scratch.
#![tactic(auto)]

ghost use Rattle.std.specs.Prelude.{◌≡◌, true, false, ℕ, ◌≤◌, ◌<◌, ◌^◌};
ghost use Rattle.dng.specs.Repair.{any_below, positions};
ghost use Rattle.fix_scratch.specs.Marks.{Gathered, Fits};
ghost use Rattle.fix_scratch.specs.Scratch.{Front, Joined};
ghost use Rattle.fix_listed.specs.Listed.{block, Inside, Within, Cutting, row_at, column_at, in_image, at_point, in_rect, listed_in};

use dng::Window;
use fix_scratch::Held;

// Columns `left` up to `right` of rows `top` up to `bottom`.
#[derive(Clone, Copy)]
struct Rect {
    top: usize,
    left: usize,
    bottom: usize,
    right: usize,
}

// A rectangle of positions, row by row; whole rows are one run.
fn patch(s: &mut [u32], held: Held, width: usize, r: Rect, top: usize) -> Option<Held>
    requires front { Front top s.old held.n held.t }
    requires inside { Inside width r.left r.bottom r.right top }
    requires r0_le_r1 { r.top ≤ r.bottom }
    ensures { Joined top (block width r.top r.left r.bottom r.right) s.old held.t s.new result }
{
    if r.right - r.left == width {
        return fix_scratch::run(s, held, r.top * width, r.bottom * width, top);
    }
    let mut k = held;
    for y in r.top..r.bottom {
        k = fix_scratch::run(s, k, y * width + r.left, y * width + r.right, top)?;
    }
    Some(k)
}

// A list's points and rectangles, in a window whose positions are counted by rows, or `across`: by columns.
#[derive(Clone, Copy)]
struct List<'a> {
    body: &'a [u8],
    points: usize,
    w: Window,
    across: bool,
    ghost fits: { Fits w },
    ghost few: { points < 2 ^ 32 },
}

impl List<'_> {
    // What of a rectangle of the image lies in the window, by the window's rows and columns.
    fn cut(&self, r: Rect) -> Rect
        ensures { Cutting self.now.w r.top r.left r.bottom r.right result.top result.left result.bottom result.right }
    {
        let w = self.w;
        Rect {
            top: r.top.saturating_sub(w.y0),
            left: r.left.saturating_sub(w.x0),
            bottom: r.bottom.saturating_sub(w.y0).min(w.height),
            right: r.right.saturating_sub(w.x0).min(w.width),
        }
    }

    // A rectangle of the image, cut to the window first.
    fn item(&self, s: &mut [u32], held: Held, r: Rect) -> Option<Held>
        requires { let l = self.now in Front (positions l.w) s.old held.n held.t }
        ensures { let l = self.now in
            Joined (positions l.w) (in_image l.across l.w r.top r.left r.bottom r.right) s.old held.t s.new result }
    {
        let rows = self.cut(r);
        if rows.right <= rows.left {
            return Some(held);
        }
        if rows.bottom <= rows.top {
            return Some(held);
        }
        let w = self.w;
        let top = w.width * w.height;
        if self.across {
            let columns = Rect {
                top: rows.left,
                left: rows.top,
                bottom: rows.right,
                right: rows.bottom,
            };
            patch(s, held, w.height, columns, top)
        } else {
            patch(s, held, w.width, rows, top)
        }
    }

    // Whether an image position lies in the window.
    fn inside(&self, row: usize, column: usize) -> bool
        ensures { let w = self.now.w in
            (result ≡ true → Within w row column) × (result ≡ false → Within w row column → ⊥) }
    {
        let w = self.w;
        w.y0 <= row && w.x0 <= column && row < w.y0 + w.height && column < w.x0 + w.width
    }

    // The position in row y, column x of the window.
    fn position(&self, y: usize, x: usize) -> u32
        requires { let w = self.now.w in (y < w.height) × (x < w.width) }
        ensures { let l = self.now in
            (result < positions l.w) × (row_at l.across l.w result ≡ y) × (column_at l.across l.w result ≡ x) }
    {
        if self.across {
            (x * self.w.height + y) as u32
        } else {
            (y * self.w.width + x) as u32
        }
    }

    // Point i.
    fn point(&self, i: usize, s: &mut [u32], held: Held) -> Option<Held>
        requires front { let l = self.now in Front (positions l.w) s.old held.n held.t }
        requires i_bound { i < 2 ^ 32 }
        ensures { let l = self.now in
            Joined (positions l.w) (at_point l.across l.w l.body.now i) s.old held.t s.new result }
    {
        let row = num_words::u32_at(self.body, 12 + 8 * i) as usize;
        let column = num_words::u32_at(self.body, 16 + 8 * i) as usize;
        if self.inside(row, column) {
            let p = self.position(row - self.w.y0, column - self.w.x0);
            fix_scratch::one(s, held, p, self.w.width * self.w.height)
        } else {
            Some(held)
        }
    }

    // Rectangle i.
    fn rectangle(&self, i: usize, s: &mut [u32], held: Held) -> Option<Held>
        requires front { let l = self.now in Front (positions l.w) s.old held.n held.t }
        requires i_bound { i < 2 ^ 32 }
        ensures { let l = self.now in
            Joined (positions l.w) (in_rect l.across l.w l.body.now l.points i) s.old held.t s.new result }
    {
        let at = 12 + 8 * self.points + 16 * i;
        let r = Rect {
            top: num_words::u32_at(self.body, at) as usize,
            left: num_words::u32_at(self.body, at + 4) as usize,
            bottom: num_words::u32_at(self.body, at + 8) as usize,
            right: num_words::u32_at(self.body, at + 12) as usize,
        };
        self.item(s, held, r)
    }

    // This loop and the next differ in their step: a closure over the scratch needs a contract longer than the loop.
    fn all_points(&self, s: &mut [u32]) -> Option<Held>
        ensures { let l = self.now in
            Joined (positions l.w) (λ q. any_below l.points (λ i. at_point l.across l.w l.body.now i q)) s.old 0 s.new result }
    {
        let mut k = Held { n: 0, t: 0 };
        for i in 0..self.points {
            k = self.point(i, s, k)?;
        }
        Some(k)
    }

    fn all_rects(&self, rects: usize, s: &mut [u32], held: Held) -> Option<Held>
        requires front { let l = self.now in Front (positions l.w) s.old held.n held.t }
        requires rects_bound { rects < 2 ^ 32 }
        ensures { let l = self.now in
            Joined (positions l.w) (λ q. any_below rects (λ i. in_rect l.across l.w l.body.now l.points i q)) s.old held.t s.new result }
    {
        let mut k = held;
        for i in 0..rects {
            k = self.rectangle(i, s, k)?;
        }
        Some(k)
    }
}

// The listed positions inside the window, each once, ascending at the front of `marks`, as `across` counts them, and
// how many they are; or nothing: there are more than it has entries.
pub fn gather(
    body: &[u8],
    points: u32,
    rects: u32,
    w: Window,
    marks: &mut [u32],
    across: bool,
) -> Option<usize>
    requires { Fits w }
    ensures { Gathered (positions w) (listed_in across w body.now points rects) marks.old
        marks.new result }
{
    let list = List {
        body,
        points: points as usize,
        w,
        across,
    };
    let points_held = list.all_points(marks)?;
    let held = list.all_rects(rects as usize, marks, points_held)?;
    Some(fix_scratch::compact(marks, held, w.width * w.height))
}
