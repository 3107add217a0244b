// The opcodes of a list on a window's samples, one after another, of either sample kind: all of them, or those before
// the repair that finds too little scratch.
// Document 01, 'What comes back': 5, opcode by opcode, the samples then as after the opcodes before it.
#![tactic(auto)]

ghost use Rattle.std.specs.Prelude.{◌≡◌, true, ◌&&◌, length};
ghost use Rattle.pointwise.specs.Points.{each};
ghost use Rattle.dng.specs.declared.Answer.TheVariants.{Marks};
ghost use Rattle.dng.specs.List.{preview_of, items_of, body_of};
ghost use Rattle.dng.specs.Select.{on_window};
ghost use Rattle.dng.specs.Run.{going, perform_all};
ghost use Rattle.dng.specs.Answer.{in_range, frame_of};
ghost use Rattle.dng.specs.Bounds.{bounded};
ghost use Rattle.sample.specs.Kinds.{kind_of};
ghost use Rattle.win_rows.specs.Windows.{WindowFits};
ghost use Rattle.run_opcodes.specs.Performs.{progress_of, Performs};

use dng::{Answer, Class, Cursor, Opcode, Settings, Step, Window};
use fix_repair::Repaired;
use sample::Sample;

// The opcodes that change each sample by itself, over a window.
pub trait WindowStep: Sample {
    fn window_step(samples: &mut [Self], w: Window, op: Opcode, body: &[u8], scale: f32)
        requires { WindowFits w × (bounded op ≡ true) }
        ensures { samples.new
            ≡ each (on_window w (length samples.old) (Self.rule (frame_of w scale) op body.now))
            samples.old };
}

impl WindowStep for f32 {
    fn window_step(samples: &mut [f32], w: Window, op: Opcode, body: &[u8], scale: f32) {
        win_opcode::window_step(samples, w, op, body, scale);
    }
}

// Of those opcodes this form knows tables alone, and it has no scale.
impl WindowStep for u16 {
    fn window_step(samples: &mut [u16], w: Window, op: Opcode, body: &[u8], _scale: f32) {
        win_opcode::window_step16(samples, w, op, body);
    }
}

// How many positions were repaired and left, by all opcodes.
#[derive(Clone, Copy)]
pub struct Totals {
    pub repaired: u64,
    pub left: u64,
}

// Stopped at an opcode by too little room for its marks (5). Opcodes that a preview leaves out are passed over and
// counted.
#[derive(Clone, Copy)]
pub struct Full {
    pub opcode: usize,
}

impl From<Full> for Answer {
    ghost from_gives = { λ f a. a ≡ Marks f.opcode };

    fn from(f: Full) -> Answer {
        Answer::Marks { opcode: f.opcode }
    }
}

// One opcode of the list: its class decides. One that is left out, one that is never applied, and a table with no
// entries do nothing, and one that changes each sample by itself repairs and leaves no position.
fn one<S: WindowStep>(
    list: &[u8],
    samples: &mut [S],
    w: Window,
    set: Settings,
    i: Step,
    marks: &mut [u32],
) -> Option<Repaired>
    requires { (in_range w set.period ≡ true) × (bounded i.op ≡ true) }
    ensures { Performs (kind_of S.none S.to_float S.of_mean S.constant_at S.equals S.rule (frame_of w set.scale))
        w set.period (record { marks = length marks.old })
        (set.preview && preview_of i.entry) i.op (body_of list.now i.entry) samples.old samples.new result }
{
    let body = list_entries::body(list, i.entry);
    match list_classes::class_in(i.op, list_entries::dropped(i.entry, set.preview)) {
        Class::Repair => {
            return fix_repair::fix(samples, w, set.period, set.scale, i.op, body, marks);
        }
        Class::Table | Class::Local => S::window_step(samples, w, i.op, body, set.scale),
        Class::Empty | Class::Unapplied => {}
    }
    Some(Repaired {
        repaired: 0,
        left: 0,
    })
}

// All opcodes, in list order.
pub fn perform<S: WindowStep>(
    list: &[u8],
    samples: &mut [S],
    w: Window,
    set: Settings,
    marks: &mut [u32],
) -> Result<Totals, Full>
    requires { in_range w set.period ≡ true }
    ensures { progress_of result samples.new
        ≡ perform_all (kind_of S.none S.to_float S.of_mean S.constant_at S.equals S.rule (frame_of w set.scale))
        w set.period (record { marks = length marks.old })
        set.preview list.now 0 (items_of list.now) (going samples.old 0 0) }
{
    let n = list_read::count(list);
    let mut repaired: u64 = 0;
    let mut left: u64 = 0;
    let mut c = Cursor { at: 4 };
    for k in 0..n { // at most 4,096 times
        // Not of a list that was read whole.
        let Ok(i) = list_read::step(list, c) else {
            return Ok(Totals { repaired, left });
        };
        let Some(done) = one(list, &mut *samples, w, set, i, &mut *marks) else {
            return Err(Full { opcode: k }); // 5
        };
        repaired += done.repaired as u64; // at most 2^32 positions
        left += done.left as u64;
        c = i.next;
    }
    Ok(Totals { repaired, left })
}
