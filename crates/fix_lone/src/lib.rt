// Whether a mark is lone, that is, none of its eight neighbours is marked: seen from the marks beside it, with no
// search.
#![tactic(auto)]

ghost use Rattle.std.specs.Prelude.{◌≡◌, true, ◌+◌, ◌-◌, ◌*◌, ◌≤◌, get_or};
ghost use Rattle.fix_near.specs.Looks.{AsksMark, LoneMark};
ghost use Rattle.fix_places.specs.Beside.{Reached};
ghost use Rattle.fix_lone.specs.Asked.{AsksMark-prop};

use dng::Window;

// Mark i of a window's, and how far apart neighbours are.
#[derive(Clone, Copy)]
struct Mark<'a> {
    marks: &'a [u32],
    w: Window,
    period: usize,
    i: usize,
    ghost asks: { AsksMark marks.now w period i } by { AsksMark-prop marks.now w period i },
}

impl Mark<'_> {
    // Its position.
    fn position(&self) -> usize
        ensures { let m = self.now in (result ≡ get_or m.marks.now m.i 0) × (result ≤ 4294967296) }
    {
        fix_places::mark(self.marks, self.i)
    }

    // How far apart two positions are that stand in one column, one step from each other.
    fn reach(&self) -> usize
        ensures { let m = self.now in (result ≡ m.period * m.w.width) × ((m.period ≤ result) × (result ≤ 4294967296)) }
    {
        self.period * self.w.width
    }

    // Where its neighbours in the row above would stand among the marks, sought from an earlier answer on. A hint: only
    // speed depends on it.
    fn above_from(&self, from: usize) -> usize
        ensures { let m = self.now in Reached m.marks.now from (get_or m.marks.now m.i 0 - (m.period * m.w.width + m.period)) result }
    {
        let lo = self.position().saturating_sub(self.reach() + self.period);
        fix_places::onward(self.marks, from, lo)
    }

    // The same of the row below.
    fn below_from(&self, from: usize) -> usize
        ensures { let m = self.now in Reached m.marks.now from (get_or m.marks.now m.i 0 + m.period * m.w.width - m.period) result }
    {
        let lo = self.position() + self.reach() - self.period;
        fix_places::onward(self.marks, from, lo)
    }

    // Whether it is known to be lone. The places are hints: where they are not those of the rows above and below, the
    // answer is no.
    fn alone(&self, up: usize, down: usize) -> bool
        ensures { let m = self.now in result ≡ true → LoneMark m.marks.now m.w m.period m.i }
    {
        let q = self.position();
        let far = self.reach();
        let period = self.period;
        let first = q.saturating_sub(far + period);
        let last = (q + period).saturating_sub(far);
        if !fix_places::under(self.marks, self.i, q.saturating_sub(period)) {
            return false;
        }
        if !fix_places::over(self.marks, self.i + 1, q + period) {
            return false;
        }
        if !fix_places::free(self.marks, up, first, last) {
            return false;
        }
        fix_places::free(self.marks, down, q + far - period, q + far + period)
    }
}

// Whether mark i is known to be lone, where `rows` has an earlier mark's places of the rows above and below: they move
// on to those of mark i.
pub fn lone_mark(marks: &[u32], w: Window, period: usize, i: usize, rows: &mut [usize; 2]) -> bool
    requires { AsksMark marks.now w period i }
    ensures { result ≡ true → LoneMark marks.now w period i }
{
    let mark = Mark {
        marks,
        w,
        period,
        i,
    };
    rows[0] = mark.above_from(rows[0]);
    rows[1] = mark.below_from(rows[1]);
    mark.alone(rows[0], rows[1])
}
