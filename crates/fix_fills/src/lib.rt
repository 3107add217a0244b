// The marked positions repaired one after another, of either sample kind: each mean straight into its sample.
#![tactic(auto)]

ghost use Rattle.std.specs.Prelude.{◌≡◌, true, ◌+◌, ◌-◌, ◌/◌, ◌^◌, ◌≤◌, ◌<◌, length, get_or};
ghost use Rattle.pointwise.specs.Points.{each, between};
ghost use Rattle.dng.specs.Repair.{complete};
ghost use Rattle.num_sorted.specs.Sorts.{has};
ghost use Rattle.fix_means.specs.Means.{mean_in};
ghost use Rattle.fix_fills.specs.Fills.{Marking, Lies, Sees, Apart, near_at, mended, repair_of};

use dng::Window;
use fix_constant::Spot;
use fix_near::Near;
use sample::Sample;

// ---- a mark

// The sound neighbours of mark i, which lies at the spot; `rows` and `places` are those of the marks before it.
fn near_mark(
    marks: &[u32],
    w: Window,
    step: usize,
    i: usize,
    spot: Spot,
    rows: &mut [usize; 2],
    places: &mut [usize; 8],
) -> Near
    requires { Marking marks.now w step × ((i < length marks.now) × Lies w (get_or marks.now i 0) spot.x spot.y) }
    ensures { result ≡ near_at w step (has marks.now) (get_or marks.now i 0) }
{
    let lone = fix_lone::lone_mark(marks, w, step, i, rows);
    fix_near::all_near(marks, w, step, spot, lone, places)
}

// ---- its samples

// The means of the pixels, none of which is the one at `from`, plane by plane into the samples from `from` on.
fn pixel<S: Sample>(samples: &mut [S], at: &[usize], planes: usize, from: usize)
    requires { Sees (length samples.old) at.now planes
        × ((from + planes ≤ length samples.old) × Apart at.now planes from) }
    ensures { samples.new
        ≡ each (between from (from + planes) (λ j v. S.of_mean (mean_in S.none S.to_float samples.old at.now (j - from))))
        samples.old }
{
    for k in 0..planes {
        samples[from + k] = S::from_mean(fix_means::mean(samples, at, k));
    }
}

// ---- all marks

// Every mark that has a sound neighbour is repaired, from the samples as they are by then; how many those are. No mark
// is a sound neighbour, so that nothing is read which was written. The rows and places move on with the marks, so that
// nothing is searched for; a mark's row is found by the reciprocal m of the width.
pub fn fill<S: Sample>(samples: &mut [S], marks: &[u32], w: Window, m: usize, step: usize) -> usize
    requires { Marking marks.now w step
        × ((complete w (length samples.old) ≡ true) × (m ≡ 2 ^ 32 / w.width)) }
    ensures { (result ≡ mended marks.now w step)
        × (samples.new ≡ repair_of S.none S.to_float S.of_mean w step (has marks.now) samples.old) }
{
    let mut rows = [0; 2];
    let mut places = [0; 8];
    let mut done = 0;
    for i in 0..marks.len() {
        let spot = fix_constant::spot_of(marks, i, w, m);
        let near = near_mark(marks, w, step, i, spot, &mut rows, &mut places);
        let at = near.as_slice();
        if !at.is_empty() {
            let from = fix_constant::place(w, spot.x, spot.y, 0);
            pixel(samples, at, w.planes, from);
            done += 1;
        }
    }
    done
}
