// The repairs over a window, of either sample kind: the marks into the u32 scratch, then each mean into its sample.
#![tactic(auto)]

ghost use Rattle.std.specs.Prelude.{◌≡◌, true, ◌≤◌, length};
ghost use Rattle.dng.specs.Answer.{frame_of, in_range};
ghost use Rattle.dng.specs.Repair.{complete, positions, step_of, marks_on, marks_of};
ghost use Rattle.sample.specs.Kinds.{kind_of};
ghost use Rattle.num_sorted.specs.Sorts.{has};
ghost use Rattle.fix_scratch.specs.Marks.{Gathered};
ghost use Rattle.fix_constant.specs.Parts.{Whole};
ghost use Rattle.fix_fills.specs.Fills.{Marking, repair_of};
ghost use Rattle.fix_repair.specs.Fixes.{Fixes};
ghost use Rattle.fix_repair.specs.Works.{Ranges, settled};

use dng::{Opcode, Window};
use sample::Sample;

// How many positions a repair mended, and how many it left.
#[derive(Clone, Copy, Default)]
pub struct Repaired {
    pub repaired: usize,
    pub left: usize,
}

// A period of 0 counts as 1.
fn step_of(period: usize) -> usize
    ensures { result ≡ step_of period }
{
    period.max(1)
}

// Whether n samples hold the whole window. The last row needs its width, not its stride.
fn full(n: usize, w: Window) -> bool
    requires { Ranges w }
    ensures { result ≡ complete w n }
{
    if w.width == 0 || w.stride < w.width || w.height == 0 {
        return false;
    }
    ((w.height - 1) * w.stride + w.width) * w.planes <= n
}

// The repair. The width's reciprocal, a division, is worked out once for all of the marks, and with none of them not at
// all.
fn settle<S: Sample>(samples: &mut [S], marks: &[u32], w: Window, step: usize) -> Repaired
    requires { Marking marks.now w step × (complete w (length samples.old) ≡ true) }
    ensures { (result ≡ settled marks.now w step)
        × (samples.new ≡ repair_of S.none S.to_float S.of_mean w step (has marks.now) samples.old) }
{
    if marks.is_empty() {
        return Repaired::default();
    }
    let m = fix_constant::reciprocal(w);
    let repaired = fix_fills::fill(samples, marks, w, m, step);
    Repaired {
        repaired,
        left: marks.len() - repaired,
    }
}

// The positions that an opcode marks. One that is no repair marks none.
fn gather<S: Sample>(
    samples: &[S],
    w: Window,
    scale: f32,
    op: Opcode,
    body: &[u8],
    marks: &mut [u32],
) -> Option<usize>
    requires { Whole (length samples.now) w }
    ensures { let kind = kind_of S.none S.to_float S.of_mean S.constant_at S.equals S.rule (frame_of w scale) in
        Gathered (positions w) (marks_on kind.none w kind.is_bad op body.now samples.now) marks.old marks.new result }
{
    match op {
        Opcode::FixBadPixelsConstant { constant, .. } => {
            fix_constant::constant_marks(samples, w, S::constant(constant, scale), marks)
        }
        Opcode::FixBadPixelsList { points, rects, .. } => fix_columns::list_marks(
            body, points, rects, w, marks,
        ),
        _ => Some(0),
    }
}

// A repair over the window; none where the scratch has too little room for the marks (5), the samples unchanged. With
// too few samples, none in a row or column, or a stride below the width, nothing is marked and no scratch is too small.
pub fn fix<S: Sample>(
    samples: &mut [S],
    w: Window,
    period: usize,
    scale: f32,
    op: Opcode,
    body: &[u8],
    marks: &mut [u32],
) -> Option<Repaired>
    requires { in_range w period ≡ true }
    ensures { let kind = kind_of S.none S.to_float S.of_mean S.constant_at S.equals S.rule (frame_of w scale) in
        Fixes kind w period (record { marks = length marks.entry.now })
        (marks_of kind.none w kind.is_bad op body.now samples.old)
        samples.old samples.new result }
{
    if !full(samples.len(), w) {
        return Some(Repaired::default());
    }
    let n = gather(samples, w, scale, op, body, marks)?;
    Some(settle(samples, &marks[..n], w, step_of(period)))
}
