// The rows of a window: their sizes, where each lies in the image, and the loop over them.
#![tactic(auto)]

ghost use Rattle.std.specs.Prelude.{◌≡◌, ◌*◌, ◌<◌, length};
ghost use Rattle.pointwise.specs.Points.{each};
ghost use Rattle.dng.specs.Select.{Rule, active, on_window};
ghost use Rattle.win_rows.specs.Calls.{Takes, Runs};
ghost use Rattle.win_rows.specs.Windows.{WindowFits, Ordered, place_of};

use dng::Window;
use row_opcode::Place;

// How many samples a row has, and how many lie from one row's start to the next.
pub fn row_width(w: Window) -> usize
    requires { WindowFits w }
    ensures { result ≡ w.width * w.planes }
{
    w.width * w.planes
}

pub fn row_stride(w: Window) -> usize
    requires { WindowFits w }
    ensures { result ≡ w.stride * w.planes }
{
    w.stride * w.planes
}

// Where row y of the window lies in the image.
pub fn place_at(w: Window, y: usize) -> Place
    requires { WindowFits w × (y < w.height) }
    ensures { result ≡ place_of w y }
{
    Place {
        x0: w.x0 as u32,
        planes: w.planes as u32,
        y: (w.y0 + y) as u32,
        full_width: w.full_width as u32,
        full_height: w.full_height as u32,
    }
}

// Whether a window has columns, and its rows do not overlap. Any other is left as it is.
pub fn is_active(w: Window) -> bool
    ensures { result ≡ active w }
{
    1 <= w.width && w.width <= w.stride
}

// Each row is lent to `one` from its own start, as a part of the samples, with its place. Data may end early: the rows
// end where one would start past it, and the last may be shorter than the others.
pub fn each_row<T: Copy, F: Fn(&mut [T], Place)>(samples: &mut [T], w: Window, one: F)
    requires fits { WindowFits w × Ordered w }
    requires calls { Takes w (F.pre one) }
    ensures { (f : Rule T) → Runs w (F.post one) f
        → samples.new ≡ each (on_window w (length samples.old) f) samples.old }
{
    let n = samples.len();
    let width = row_width(w);
    let step = row_stride(w);
    // where the row starts, beside y: a product for each would be much of what a row that is left costs
    let mut at = 0;
    for y in 0..w.height {
        if n <= at {
            return;
        }
        one(&mut samples[at..(at + width).min(n)], place_at(w, y));
        at += step;
    }
}
