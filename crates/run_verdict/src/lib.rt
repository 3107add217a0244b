// Whether a frame is whole: by the number that its run answered, and by what of its list had its effect.
#![tactic(auto)]

ghost use Rattle.std.specs.Prelude.{◌≡◌, ◌&&◌, ◌||◌};
ghost use Rattle.dng.specs.List.{optional_of, preview_of};
ghost use Rattle.dng.specs.Value.{m2_of, usable};
ghost use Rattle.dng.specs.Run.{class_of};
ghost use Rattle.run_verdict.specs.Verdict.{applied, sized, reaches, had_effect, whole_list, whole_frame};

use dng::{Class, Cursor, Entry, Opcode, Radial};

fn is_applied(op: Opcode) -> bool
    ensures { result ≡ applied (class_of op) }
{
    matches!(
        list_classes::class_of(op),
        Class::Table | Class::Local | Class::Repair
    )
}

fn is_usable(q: Radial, full_width: u32, full_height: u32) -> bool
    ensures { result ≡ usable (m2_of (sized full_width full_height) q) }
{
    row_vignette::m2(q, full_width, full_height).is_some()
}

// A vignette whose m2 is refused does not.
fn reaches(op: Opcode, full_width: u32, full_height: u32) -> bool
    ensures { result ≡ reaches full_width full_height op }
{
    match op {
        Opcode::WarpRectilinear { .. } => true,
        Opcode::WarpFisheye => true,
        Opcode::FixVignetteRadial { radial } => is_usable(radial, full_width, full_height),
        Opcode::FixBadPixelsConstant { .. } => true,
        Opcode::FixBadPixelsList { .. } => true,
        Opcode::TrimBounds { .. } => true,
        Opcode::MapTable { .. } => true,
        Opcode::MapPolynomial { .. } => true,
        Opcode::GainMap { .. } => true,
        Opcode::DeltaPerRow { .. } => true,
        Opcode::DeltaPerColumn { .. } => true,
        Opcode::ScalePerRow { .. } => true,
        Opcode::ScalePerColumn { .. } => true,
        Opcode::Other { .. } => true,
    }
}

fn had_effect(op: Opcode, full_width: u32, full_height: u32) -> bool
    ensures { result ≡ had_effect full_width full_height op }
{
    is_applied(op) & reaches(op, full_width, full_height)
}

// An entry stands in no frame's way: a preview leaves it out, it is optional, or it had its effect.
fn is_settled(e: Entry, op: Opcode, full_width: u32, full_height: u32, preview: bool) -> bool
    ensures { result ≡ ((preview && preview_of e) || (optional_of e || had_effect full_width full_height op)) }
{
    list_entries::dropped(e, preview)
        | (list_entries::optional(e) | had_effect(op, full_width, full_height))
}

// The verdict of a list, which a caller by rows asks once. It goes by the entries that are read whole.
pub fn is_whole(list: &[u8], full_width: u32, full_height: u32, preview: bool) -> bool
    ensures { result ≡ whole_list full_width full_height preview list.now }
{
    let n = list_read::count(list);
    let mut c = Cursor { at: 4 };
    for k in 0..n {
        let Ok(s) = list_read::step(list, c) else {
            return true;
        };
        if !is_settled(s.entry, s.op, full_width, full_height, preview) {
            return false;
        }
        c = s.next;
    }
    true
}

// The verdict of a frame: its run answered `number`.
pub fn whole_frame(
    list: &[u8],
    full_width: u32,
    full_height: u32,
    preview: bool,
    number: u32,
) -> bool
    ensures { result ≡ whole_frame full_width full_height preview list.now number }
{
    if number == 0 {
        is_whole(list, full_width, full_height, preview)
    } else {
        false
    }
}
