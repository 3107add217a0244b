// Which rows, columns and planes a region selects: the first column worked out once an opcode, the rest once a row,
// handed to the steps as a walk.
// The numbers are those of a region as the list has them: a pitch of 0 counts as 1.
#![tactic(auto)]

ghost use Rattle.std.specs.Prelude.{◌≡◌, ℕ, ◌+◌, ◌-◌, ◌*◌, ◌/◌, ◌≤◌, ◌<◌, min, length};
ghost use Rattle.pointwise.specs.Points.{each};
ghost use Rattle.pointwise.specs.Select.{selects, First};
ghost use Rattle.row_select.specs.Calls.{Takes, Gives};
ghost use Rattle.row_select.specs.Steps.{stepped};
ghost use Rattle.row_select.specs.Walks.{walked, Walks};

// The selected samples of one plane of a row: the row starts at image column x0 and has `planes` samples to a pixel;
// the columns left..right are selected, `pitch` apart; the first of them at or after x0 is x0 + col, the `nth` counted
// from left.
#[derive(Clone, Copy)]
pub struct Walk {
    pub x0: usize,
    pub planes: usize,
    pub left: usize,
    pub right: usize,
    pub pitch: usize,
    pub plane: usize,
    pub col: usize,
    pub nth: usize,
}

// The first selected column at or after x0: x0 + col, the `nth` counted from left.
#[derive(Clone, Copy)]
pub struct Start {
    pub col: usize,
    pub nth: usize,
}

// The first selected column at or after x0. Document 01, 'Which samples an opcode touches': "A region selects row y
// with top ≤ y < bottom and (y−top) divisible by the row pitch; columns likewise". So: the distance from left, its
// remainder by the pitch, and one step forward, pitch − remainder, if that is not zero.
pub fn first_column(left: u32, pitch: u32, x0: u32) -> Start
    ensures { First left pitch x0 result.col result.nth }
{
    let lo = left as usize;
    let at = x0 as usize;
    let step = (pitch as usize).max(1);
    if at <= lo {
        return Start {
            col: lo - at,
            nth: 0,
        };
    }
    let distance = at - lo;
    // every distance is divisible by 1
    if step < 2 {
        return Start {
            col: 0,
            nth: distance,
        };
    }
    // side by side the two are one division
    let rest = distance % step;
    let steps = distance / step;
    if rest == 0 {
        return Start { col: 0, nth: steps };
    }
    let forward = step - rest;
    Start {
        col: forward,
        nth: steps + 1,
    }
}

// Whether a region from top to bottom selects the image row y.
pub fn row_selected(top: u32, bottom: u32, pitch: u32, y: usize) -> bool
    ensures { result ≡ selects top bottom pitch y }
{
    let lo = top as usize;
    let hi = bottom as usize;
    let step = (pitch as usize).max(1);
    if y < lo {
        return false;
    }
    if hi <= y {
        return false;
    }
    if step < 2 {
        return true;
    }
    (y - lo) % step == 0
}

// Past the last plane that a region selects of a window's planes.
pub fn plane_end(plane: u32, planes: u32, window: usize) -> usize
    ensures { result ≡ min (plane + planes) window }
{
    (plane as usize + planes as usize).min(window)
}

// Past the last sample of a row of n that a walk may touch.
pub fn stop_of(k: Walk, n: usize) -> usize
    requires { Walks k n }
    ensures { result ≡ min n ((k.right - k.x0) * k.planes) }
{
    n.min(k.right.saturating_sub(k.x0) * k.planes)
}

// Neighbours, as at pitch 1 of one plane: a loop of its own, so that several can be done at a time.
fn on_run<T: Copy, F: Fn(usize, T) -> T>(
    row: &mut [T],
    begin: usize,
    stop: usize,
    first: usize,
    f: F,
)
    requires inside { stop ≤ length row.old }
    requires short { (stop ≤ 524288) × (first < 8589934592) }
    requires calls { Takes (F.pre f) }
    ensures { (h : ℕ → T → T) → Gives (F.post f) h
        → row.new ≡ each (stepped begin stop 1 (λ m v. h (first + m) v)) row.old }
{
    for i in begin..stop {
        row[i] = f(first + (i - begin), row[i]);
    }
}

// `step_by` of a range calls `next` for every place between two steps, so it is slower.
fn on_steps<T: Copy, F: Fn(usize, T) -> T>(
    row: &mut [T],
    begin: usize,
    stop: usize,
    step: usize,
    first: usize,
    f: F,
)
    requires inside { stop ≤ length row.old }
    requires goes { (1 ≤ step) × (step < 34359738368) }
    requires short { (stop ≤ 524288) × (first < 8589934592) }
    requires calls { Takes (F.pre f) }
    ensures { (h : ℕ → T → T) → Gives (F.post f) h
        → row.new ≡ each (stepped begin stop step (λ m v. h (first + m) v)) row.old }
{
    let mut j = first;
    let mut i = begin;
    while i < stop {
        row[i] = f(j, row[i]);
        i += step;
        j += 1;
    }
}

// Each sample of the walk becomes what `f` makes of it; f's first argument is the number of the sample's column,
// counted from left.
pub fn on_walk<T: Copy, F: Fn(usize, T) -> T>(row: &mut [T], k: Walk, f: F)
    requires walk { Walks k (length row.old) }
    requires calls { Takes (F.pre f) }
    ensures { (h : ℕ → T → T) → Gives (F.post f) h
        → row.new ≡ walked k (λ x p v. h ((x - k.left) / k.pitch) v) row.old }
{
    let begin = k.col * k.planes + k.plane;
    let stop = stop_of(k, row.len());
    let step = k.pitch * k.planes;
    if step == 1 {
        on_run(row, begin, stop, k.nth, f);
    } else {
        on_steps(row, begin, stop, step, k.nth, f);
    }
}

// The same by steps alone, also where the samples lie side by side. What prepares a run of samples is made ready in each
// row, also in one that is left: much of what narrow rows of whole numbers cost.
pub fn on_spaced<T: Copy, F: Fn(usize, T) -> T>(row: &mut [T], k: Walk, f: F)
    requires walk { Walks k (length row.old) }
    requires calls { Takes (F.pre f) }
    ensures { (h : ℕ → T → T) → Gives (F.post f) h
        → row.new ≡ walked k (λ x p v. h ((x - k.left) / k.pitch) v) row.old }
{
    let from = k.col * k.planes + k.plane;
    let stop = stop_of(k, row.len());
    on_steps(row, from, stop, k.pitch * k.planes, k.nth, f);
}
