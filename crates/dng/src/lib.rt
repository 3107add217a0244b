// The types that every layer shares, and with them the paper: the definitions in specs/ that the contracts of all other
// crates cite.
// Words are kept as the list has them (a pitch of 0 stays 0 here); what a 0 means is said where it is used.
#![tactic(auto)]

ghost use Rattle.std.specs.Prelude.{◌≡◌};
ghost use Rattle.dng.specs.declared.Reason.TheVariants.{Inside};
ghost use Rattle.dng.specs.List.{refusal};

use num_words::Cut;

// The area and the planes that an opcode touches. Document 01, 'The list'.
#[derive(Clone, Copy)]
pub struct Region {
    pub top: u32,
    pub left: u32,
    pub bottom: u32,
    pub right: u32,
    pub plane: u32,
    pub planes: u32,
    pub row_pitch: u32,
    pub col_pitch: u32,
}

// Where the points of a gain map lie: one record of four f64.
#[derive(Clone, Copy)]
pub struct Grid {
    pub spacing_v: f64,
    pub spacing_h: f64,
    pub origin_v: f64,
    pub origin_h: f64,
}

// The seven numbers of FixVignetteRadial.
#[derive(Clone, Copy)]
pub struct Radial {
    pub k0: f64,
    pub k1: f64,
    pub k2: f64,
    pub k3: f64,
    pub k4: f64,
    pub cx: f64,
    pub cy: f64,
}

// An opcode's header fields. What a count counts stands in the body, which is kept beside the opcode as a part of the
// lent list.
#[derive(Clone, Copy)]
pub enum Opcode {
    // `planes` is 0 where the body is malformed. Reported, never applied.
    WarpRectilinear {
        planes: u32,
        cx: f64,
        cy: f64,
    },
    WarpFisheye,
    FixVignetteRadial {
        radial: Radial,
    },
    FixBadPixelsConstant {
        constant: u32,
        bayer_phase: u32,
    },
    FixBadPixelsList {
        bayer_phase: u32,
        points: u32,
        rects: u32,
    },
    TrimBounds {
        top: u32,
        left: u32,
        bottom: u32,
        right: u32,
    },
    MapTable {
        region: Region,
        n: u32,
    },
    MapPolynomial {
        region: Region,
        degree: u32,
    },
    GainMap {
        region: Region,
        points_v: u32,
        points_h: u32,
        grid: Grid,
        map_planes: u32,
    },
    DeltaPerRow {
        region: Region,
        n: u32,
    },
    DeltaPerColumn {
        region: Region,
        n: u32,
    },
    ScalePerRow {
        region: Region,
        n: u32,
    },
    ScalePerColumn {
        region: Region,
        n: u32,
    },
    Other {
        id: u32,
    },
}

// The ids of the DNG Specification's opcodes, and the limits of a list.
impl Opcode {
    pub const WARP_RECTILINEAR: u32 = 1;

    pub const WARP_FISHEYE: u32 = 2;

    pub const FIX_VIGNETTE_RADIAL: u32 = 3;

    pub const FIX_BAD_PIXELS_CONSTANT: u32 = 4;

    pub const FIX_BAD_PIXELS_LIST: u32 = 5;

    pub const TRIM_BOUNDS: u32 = 6;

    pub const MAP_TABLE: u32 = 7;

    pub const MAP_POLYNOMIAL: u32 = 8;

    pub const GAIN_MAP: u32 = 9;

    pub const DELTA_PER_ROW: u32 = 10;

    pub const DELTA_PER_COLUMN: u32 = 11;

    pub const SCALE_PER_ROW: u32 = 12;

    pub const SCALE_PER_COLUMN: u32 = 13;

    pub const MAX_OPCODES: u32 = 4096;

    pub const MAX_ELEMENTS: u32 = 16_777_216;

    pub const MAX_DEGREE: u32 = 8;
}

// What an opcode is to the forms of a run: a table with entries, a table with none, another row-local pixel opcode, a
// repair, and what is never applied.
#[derive(Clone, Copy)]
pub enum Class {
    Table,
    Empty,
    Local,
    Repair,
    Unapplied,
}

// An entry of a list: its header words as they stand, and where its body lies in the list.
#[derive(Clone, Copy)]
pub struct Entry {
    pub at: usize,
    pub len: usize,
    pub id: u32,
    pub version: u32,
    pub flags: u32,
}

// A position in the lent list.
#[derive(Clone, Copy)]
pub struct Cursor {
    pub at: usize,
}

// Why a list is refused. The paper's number of each: specs/List, reason_number.
#[derive(Clone, Copy)]
pub enum Reason {
    // the list ends in its count or in an entry's header
    Ends,
    // more than 4,096 entries
    TooMany,
    // a body is longer than the rest of the list
    TooLong,
    // a body ends inside a field of fixed size
    Inside,
    // a count or dimension breaks its limit, or the body
    Count,
    // a degree is above 8
    Degree,
}

// Why, and the offset of the field that could not be read or accepted, from the list's first byte.
#[derive(Clone, Copy)]
pub struct Refusal {
    pub reason: Reason,
    pub at: usize,
}

// A body that ends inside a field of fixed size.
impl From<Cut> for Refusal {
    ghost from_gives = { λ c r. r ≡ refusal Inside c.at };

    fn from(c: Cut) -> Refusal {
        Refusal {
            reason: Reason::Inside,
            at: c.at,
        }
    }
}

// What stands at a cursor: an entry's header, with the cursor past its body.
#[derive(Clone, Copy)]
pub struct Found {
    pub entry: Entry,
    pub next: Cursor,
}

// An entry read whole, header and body, with the cursor past it.
#[derive(Clone, Copy)]
pub struct Step {
    pub entry: Entry,
    pub op: Opcode,
    pub next: Cursor,
}

// A list that cannot be read whole: after how many entries that were, and why.
#[derive(Clone, Copy)]
pub struct Malformed {
    pub after: usize,
    pub why: Refusal,
}

// The window of a frame that a run changes: `width` by `height` pixels of `planes` samples, rows `stride` pixels apart,
// its corner at (x0, y0) of an image of full_width by full_height.
#[repr(C)]
#[derive(Clone, Copy)]
pub struct Window {
    pub width: usize,
    pub height: usize,
    pub planes: usize,
    pub stride: usize,
    pub x0: usize,
    pub y0: usize,
    pub full_width: usize,
    pub full_height: usize,
}

impl Window {
    pub const MAX_SIZE: usize = 65_536;

    pub const MAX_PLANES: usize = 8;

    pub const MAX_PLACE: usize = 16_777_216;
}

// The row form's window: a row has no height, no stride and no y0 of its own.
#[repr(C)]
#[derive(Clone, Copy)]
pub struct RowWindow {
    pub width: usize,
    pub planes: usize,
    pub x0: usize,
    pub full_width: usize,
    pub full_height: usize,
}

impl RowWindow {
    pub const MAX_ROW: usize = 16_842_751;
}

// What a run is told besides the list and the window. The whole-number form counts the scale as 1. A preview leaves out
// the opcodes whose flag says that it may.
#[repr(C)]
#[derive(Clone, Copy)]
pub struct Settings {
    pub period: usize,
    pub scale: f32,
    pub preview: bool,
}

impl Settings {
    pub const MAX_PERIOD: usize = 65_536;
}

// What a run answers. The paper's number and values of each case: specs/Answer.
#[derive(Clone, Copy)]
pub enum Answer {
    Done {
        names: usize,
        repaired: u64,
        left: u64,
    },
    Range,
    Malformed {
        entry: usize,
        why: Refusal,
    },
    NotTaken,
    Names,
    Marks {
        opcode: usize,
    },
}

// What a row call answers. It names no opcode; `skipped` is how many of the list's the f32 run would name.
#[derive(Clone, Copy)]
pub enum RowAnswer {
    Done { skipped: usize },
    Range,
    Malformed { entry: usize, why: Refusal },
    NotTaken,
}

// Document 01's table, 'What comes back', as numbers, with document 02's offset.
#[repr(C)]
#[derive(Clone, Copy)]
pub struct Numbers {
    pub number: u32,
    pub entry: usize,
    pub offset: usize,
    pub opcode: usize,
    pub names: usize,
    pub repaired: u64,
    pub left: u64,
}
