// The sound neighbours of a position: which they are, and where their samples begin.
#![tactic(auto)]

ghost use Rattle.std.specs.Prelude.{◌≡◌, true, ℕ, List, [], ◌∷◌, ◌++◌, length, map, take, ◌≤◌, ◌<◌};
ghost use Rattle.dng.specs.Repair.{steps, moved};
ghost use Rattle.num_sorted.specs.Sorts.{has, Rises};
ghost use Rattle.fix_scratch.specs.Marks.{Fits};
ghost use Rattle.fix_near.specs.Looks.{Asks, Inside, none, Lone, pair_of, one_step, Steps, open_at, sound_of, near_of, array_of, InArray, array_of-near, length-near};

use dng::Window;
use fix_constant::Spot;
use std::marker::Model;

// One step to a neighbour, in columns and rows of the period.
#[derive(Clone, Copy)]
pub struct Step {
    pub dx: i64,
    pub dy: i64,
}

// Where the samples of the sound neighbours begin: the first n. Behind them stand zeros, so that the list of them gives
// the array back, which `Copy` asks for.
#[derive(Clone, Copy)]
pub struct Near {
    at: [usize; 8],
    n: usize,
}

impl Model for Near {
    ghost Value = { List ℕ };

    ghost view = { λ r. take r.n r.at };

    ghost invariant = { λ r. InArray r.n r.at };

    ghost inverse = { λ l. record { at = array_of l; n = length l } };

    ghost inverse_ok = { λ r h i. record { at = array_of-near h i; n = length-near h i } };
}

impl Near {
    fn none() -> Near
        ensures { result ≡ [] }
    {
        Near { at: [0; 8], n: 0 }
    }

    fn push(&mut self, first: usize)
        requires { length self.old < 8 }
        ensures { self.new ≡ self.old ++ first ∷ [] }
    {
        self.at[self.n] = first;
        self.n += 1;
    }

    pub fn as_slice(&self) -> &[usize]
        ensures { result.now ≡ self.now }
    {
        &self.at[..self.n]
    }
}

// Left, right, up, down, up-left, down-right, down-left, up-right.
pub fn steps() -> [Step; 8]
    ensures { map pair_of result ≡ steps }
{
    [
        Step { dx: -1, dy: 0 },
        Step { dx: 1, dy: 0 },
        Step { dx: 0, dy: -1 },
        Step { dx: 0, dy: 1 },
        Step { dx: -1, dy: -1 },
        Step { dx: 1, dy: 1 },
        Step { dx: -1, dy: 1 },
        Step { dx: 1, dy: -1 },
    ]
}

// One coordinate, d steps of the period on; `outside` where that would be below 0.
fn shifted(at: usize, d: i64, period: usize, outside: usize) -> usize
    requires { (one_step d ≡ true) × (at ≤ 65536) × (period ≤ 65536) }
    ensures { result ≡ moved at d period outside }
{
    if d == 0 {
        return at;
    }
    if d == 1 {
        return at + period;
    }
    if at < period { outside } else { at - period }
}

// The position one step away; the width or the height where that would be below 0.
fn stepped(w: Window, period: usize, from: Spot, s: Step) -> Spot
    requires { Steps period from.x from.y (pair_of s) }
    ensures { (result.x ≡ moved from.x s.dx period w.width) × (result.y ≡ moved from.y s.dy period w.height) }
{
    Spot {
        x: shifted(from.x, s.dx, period, w.width),
        y: shifted(from.y, s.dy, period, w.height),
    }
}

// The position, where it lies in the window and is not marked; it is sought among the marks from the place on.
fn sound_at(marks: &[u32], w: Window, to: Spot, place: &mut usize) -> Option<Spot>
    requires { Fits w × Rises 0 marks.now }
    ensures { result ≡ open_at w.width w.height (has marks.now) to.x to.y }
{
    if w.width <= to.x || w.height <= to.y {
        return None;
    }
    let q = fix_constant::position(w, to.x, to.y);
    if fix_places::seek(marks, q, place) {
        None
    } else {
        Some(to)
    }
}

// The neighbour one step away, where it is sound.
fn beside(
    marks: &[u32],
    w: Window,
    period: usize,
    from: Spot,
    s: Step,
    place: &mut usize,
) -> Option<Spot>
    requires { Asks marks.now w period from.x from.y × Steps period from.x from.y (pair_of s) }
    ensures { result ≡ sound_of w.width w.height period (has marks.now) from.x from.y (pair_of s) }
{
    sound_at(marks, w, stepped(w, period, from, s), place)
}

// The sound neighbours, step by step. Each step has a place among the marks, which moves on with the positions that are
// asked for.
fn around(marks: &[u32], w: Window, period: usize, from: Spot, places: &mut [usize; 8]) -> Near
    requires { Asks marks.now w period from.x from.y }
    ensures { result ≡ near_of w period (has marks.now) from.x from.y }
{
    let all = steps();
    let mut near = Near::none();
    for (i, s) in all.iter().enumerate() {
        if let Some(to) = beside(marks, w, period, from, *s, &mut places[i]) {
            near.push(fix_constant::place(w, to.x, to.y, 0));
        }
    }
    near
}

// Whether all eight neighbours lie in the window.
fn inside(w: Window, period: usize, from: Spot) -> bool
    requires { (from.x ≤ 65536) × ((from.y ≤ 65536) × (period ≤ 65536)) }
    ensures { result ≡ true → Inside w period from.x from.y }
{
    period <= from.x && period <= from.y && from.x + period < w.width && from.y + period < w.height
}

// All eight neighbours, none marked and each in the window, step by step. Nothing is tested, so that no loop is left
// of the walk when it is compiled.
fn eight(w: Window, period: usize, from: Spot) -> Near
    requires { Fits w × ((period ≤ 65536) × Inside w period from.x from.y) }
    ensures { result ≡ near_of w period none from.x from.y }
{
    let mut near = Near::none();
    for s in steps() {
        let to = stepped(w, period, from, s);
        near.push(fix_constant::place(w, to.x, to.y, 0));
    }
    near
}

// The sound neighbours of a position that may be known to be lone: then no mark is looked at.
pub fn all_near(
    marks: &[u32],
    w: Window,
    period: usize,
    from: Spot,
    lone: bool,
    places: &mut [usize; 8],
) -> Near
    requires { Asks marks.now w period from.x from.y × (lone ≡ true → Lone (has marks.now) w period from.x from.y) }
    ensures { result ≡ near_of w period (has marks.now) from.x from.y }
{
    if !lone {
        return around(marks, w, period, from, places);
    }
    if inside(w, period, from) {
        eight(w, period, from)
    } else {
        around(&[], w, period, from, places)
    }
}
