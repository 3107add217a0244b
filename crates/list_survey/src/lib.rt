// One pass over a list: whether it can be read whole, how many entries are, which forms take those, and how many
// opcodes each form skips. In a preview forms and skips go by the entries that are left.
// What is said of the entries goes by those that are read whole, also where the list is malformed after them.
#![tactic(auto)]

ghost use Rattle.std.specs.Prelude.{◌≡◌, cond, ◌≤◌};
ghost use Rattle.dng.specs.Run.{class_of};
ghost use Rattle.list_classes.specs.Classes.{facts_of};
ghost use Rattle.list_survey.specs.Survey.{begun, turn_on, surveyed_by, survey_from, survey_of};

use dng::{Cursor, Malformed, Opcode};

// How many entries are read whole, whether the whole-number form and the row form take them, and how many opcodes the
// f32 run and the whole-number run skip.
#[derive(Clone, Copy)]
pub struct Survey {
    pub opcodes: usize,
    pub takes16: bool,
    pub takes_rows: bool,
    pub skips: usize,
    pub skips16: usize,
}

#[derive(Clone, Copy)]
pub struct Surveyed {
    pub reading: Result<usize, Malformed>,
    pub survey: Survey,
}

// The same while entries are read; `free` says that no repair has come yet.
#[derive(Clone, Copy)]
struct Tally {
    free: bool,
    takes16: bool,
    takes_rows: bool,
    skips: usize,
    skips16: usize,
}

fn begin() -> Tally
    ensures { result ≡ begun }
{
    Tally {
        free: true,
        takes16: true,
        takes_rows: true,
        skips: 0,
        skips16: 0,
    }
}

// One entry more; one that is dropped counts for nothing.
fn turn(t: Tally, op: Opcode, dropped: bool) -> Tally
    requires { (t.skips ≤ 4096) × (t.skips16 ≤ 4096) }
    ensures { result ≡ cond dropped t (turn_on (facts_of (class_of op)) t) }
{
    if dropped {
        return t;
    }
    let f = list_classes::facts_of(op);
    let one = usize::from(f.skipped);
    let one16 = usize::from(f.skipped16);
    Tally {
        free: t.free & !f.repair,
        takes16: t.takes16 & (!f.local & (t.free | !f.repair)),
        takes_rows: t.takes_rows & f.by_row,
        skips: t.skips + one,
        skips16: t.skips16 + one16,
    }
}

fn made_of(reading: Result<usize, Malformed>, opcodes: usize, t: Tally) -> Surveyed
    ensures { result ≡ surveyed_by reading opcodes t }
{
    let survey = Survey {
        opcodes,
        takes16: t.takes16,
        takes_rows: t.takes_rows,
        skips: t.skips,
        skips16: t.skips16,
    };
    Surveyed { reading, survey }
}

// n entries after the count, to the last or to the first malformed one.
fn read_entries(list: &[u8], n: usize, preview: bool) -> Surveyed
    requires { n ≤ 4096 }
    ensures { result ≡ survey_from preview list.now n }
{
    let mut t = begin();
    let mut c = Cursor { at: 4 };
    for k in 0..n {
        match list_read::step(list, c) {
            Ok(s) => {
                t = turn(t, s.op, list_entries::dropped(s.entry, preview));
                c = s.next;
            }
            Err(why) => return made_of(Err(Malformed { after: k, why }), k, t),
        }
    }
    made_of(Ok(n), n, t)
}

// Reads a list to its end or to its first malformed entry.
pub fn read(list: &[u8], preview: bool) -> Surveyed
    ensures { result ≡ survey_of preview list.now }
{
    match list_read::entries_in(list) {
        Ok(n) => read_entries(list, n, preview),
        Err(why) => made_of(Err(Malformed { after: 0, why }), 0, begin()),
    }
}
