// One opcode over a whole window. Each row is lent from its own start, as a part of the samples. A gain map goes by
// blocks of columns.
#![tactic(auto)]

ghost use Rattle.std.specs.Prelude.{◌≡◌, true, length};
ghost use Rattle.pointwise.specs.Points.{each};
ghost use Rattle.dng.specs.Select.{on_window};
ghost use Rattle.dng.specs.Bounds.{bounded};
ghost use Rattle.dng.specs.Value.{rule_of, rule16_of};
ghost use Rattle.dng.specs.Answer.{frame_of};
ghost use Rattle.win_rows.specs.Windows.{WindowFits, Ordered};

use dng::{Opcode, Window};

fn by_rows(samples: &mut [f32], w: Window, op: Opcode, body: &[u8], scale: f32)
    requires { WindowFits w × Ordered w × (bounded op ≡ true) }
    ensures { samples.new
        ≡ each (on_window w (length samples.old) (rule_of (frame_of w scale) op body.now))
        samples.old }
{
    let ready = row_opcode::prepare(op, w.x0 as u32, w.full_width as u32, w.full_height as u32);
    win_rows::each_row(samples, w, move |row, g| {
        row_opcode::row_step(row, g, op, ready, body, scale)
    });
}

// The rows and planes of a gain map share the positions of their columns. A single row of one plane has nothing to
// share, and where there are fewer samples than columns, positions for all columns would cost more than the samples.
fn by_kind(samples: &mut [f32], w: Window, op: Opcode, body: &[u8], scale: f32)
    requires { WindowFits w × Ordered w × (bounded op ≡ true) }
    ensures { samples.new
        ≡ each (on_window w (length samples.old) (rule_of (frame_of w scale) op body.now))
        samples.old }
{
    if samples.len() <= w.width || w.height < 2 && w.planes < 2 {
        by_rows(samples, w, op, body, scale);
        return;
    }
    match win_gain::gain_of(op) {
        Some(gain) => win_gain::gain_window(samples, w, gain, body),
        None => by_rows(samples, w, op, body, scale),
    }
}

// A window without columns, or whose rows would overlap, is left as it is.
pub fn window_step(samples: &mut [f32], w: Window, op: Opcode, body: &[u8], scale: f32)
    requires { WindowFits w × (bounded op ≡ true) }
    ensures { samples.new
        ≡ each (on_window w (length samples.old) (rule_of (frame_of w scale) op body.now))
        samples.old }
{
    if win_rows::is_active(w) {
        by_kind(samples, w, op, body, scale);
    }
}

// The same of whole numbers, which tables alone touch: a function of its own, since no gain map shares columns here.
pub fn window_step16(samples: &mut [u16], w: Window, op: Opcode, body: &[u8])
    requires { WindowFits w }
    ensures { samples.new
        ≡ each (on_window w (length samples.old) (rule16_of op body.now)) samples.old }
{
    if win_rows::is_active(w) {
        let ready = row_opcode::prepare(op, w.x0 as u32, w.full_width as u32, w.full_height as u32);
        win_rows::each_row(samples, w, move |row, g| {
            row_opcode::row_step16(row, g, op, ready, body)
        });
    }
}
