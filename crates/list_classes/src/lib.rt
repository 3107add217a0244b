// What an opcode is to the forms of a run, and the byte that names it.
#![tactic(auto)]

ghost use Rattle.std.specs.Prelude.{◌≡◌, cond};
ghost use Rattle.dng.specs.declared.Class.TheVariants.{Unapplied};
ghost use Rattle.dng.specs.Run.{class_of, name_of};
ghost use Rattle.list_classes.specs.Classes.{facts_of};

use dng::{Class, Opcode};

pub fn class_of(op: Opcode) -> Class
    ensures { result ≡ class_of op }
{
    match op {
        Opcode::WarpRectilinear { .. } => Class::Unapplied,
        Opcode::WarpFisheye => Class::Unapplied,
        Opcode::FixVignetteRadial { .. } => Class::Local,
        Opcode::FixBadPixelsConstant { .. } => Class::Repair,
        Opcode::FixBadPixelsList { .. } => Class::Repair,
        Opcode::TrimBounds { .. } => Class::Unapplied,
        Opcode::MapTable { region: _, n } => if n == 0 { Class::Empty } else { Class::Table },
        Opcode::MapPolynomial { .. } => Class::Local,
        Opcode::GainMap { .. } => Class::Local,
        Opcode::DeltaPerRow { .. } => Class::Local,
        Opcode::DeltaPerColumn { .. } => Class::Local,
        Opcode::ScalePerRow { .. } => Class::Local,
        Opcode::ScalePerColumn { .. } => Class::Local,
        Opcode::Other { .. } => Class::Unapplied,
    }
}

// The class in a run: an opcode that is left out of a preview is not applied there.
pub fn class_in(op: Opcode, dropped: bool) -> Class
    ensures { result ≡ cond dropped Unapplied (class_of op) }
{
    if dropped {
        Class::Unapplied
    } else {
        class_of(op)
    }
}

// The id, and 0 for an id of no opcode.
pub fn name_of(op: Opcode) -> u8
    ensures { result ≡ name_of op }
{
    match op {
        Opcode::WarpRectilinear { .. } => Opcode::WARP_RECTILINEAR as u8,
        Opcode::WarpFisheye => Opcode::WARP_FISHEYE as u8,
        Opcode::FixVignetteRadial { .. } => Opcode::FIX_VIGNETTE_RADIAL as u8,
        Opcode::FixBadPixelsConstant { .. } => Opcode::FIX_BAD_PIXELS_CONSTANT as u8,
        Opcode::FixBadPixelsList { .. } => Opcode::FIX_BAD_PIXELS_LIST as u8,
        Opcode::TrimBounds { .. } => Opcode::TRIM_BOUNDS as u8,
        Opcode::MapTable { .. } => Opcode::MAP_TABLE as u8,
        Opcode::MapPolynomial { .. } => Opcode::MAP_POLYNOMIAL as u8,
        Opcode::GainMap { .. } => Opcode::GAIN_MAP as u8,
        Opcode::DeltaPerRow { .. } => Opcode::DELTA_PER_ROW as u8,
        Opcode::DeltaPerColumn { .. } => Opcode::DELTA_PER_COLUMN as u8,
        Opcode::ScalePerRow { .. } => Opcode::SCALE_PER_ROW as u8,
        Opcode::ScalePerColumn { .. } => Opcode::SCALE_PER_COLUMN as u8,
        Opcode::Other { .. } => 0,
    }
}

// What one opcode is to the forms: a pixel opcode that no whole-number form has, a repair, taken by the row form,
// skipped by the f32 run, and skipped by the whole-number run, where an empty table has no name.
#[derive(Clone, Copy)]
pub struct Facts {
    pub local: bool,
    pub repair: bool,
    pub by_row: bool,
    pub skipped: bool,
    pub skipped16: bool,
}

fn made_of(local: bool, repair: bool, by_row: bool, skipped: bool, skipped16: bool) -> Facts
    ensures { result ≡ record {
      local = local;
      repair = repair;
      by_row = by_row;
      skipped = skipped;
      skipped16 = skipped16;
    } }
{
    Facts {
        local,
        repair,
        by_row,
        skipped,
        skipped16,
    }
}

pub fn facts_of(op: Opcode) -> Facts
    ensures { result ≡ facts_of (class_of op) }
{
    match class_of(op) {
        Class::Table => made_of(false, false, true, false, false),
        // By rows it would have to be named.
        Class::Empty => made_of(false, false, false, true, false),
        // Its values need not be whole.
        Class::Local => made_of(true, false, true, false, false),
        // It looks at other rows.
        Class::Repair => made_of(false, true, false, false, false),
        Class::Unapplied => made_of(false, false, true, true, true),
    }
}
