// The refusals 1, 20 to 25, 3 and 4 of a run, and 1, 20 to 25 and 3 of a row, in order, before a sample is looked at: a
// run that may go on cannot be refused by them any more.
#![tactic(auto)]

ghost use Rattle.std.specs.Prelude.{◌≡◌, ℕ, Bool, List, length};
ghost use Rattle.std.proofs.lemmas.List.Edits.{sets};
ghost use Rattle.dng.specs.declared.Class.{Class};
ghost use Rattle.dng.specs.List.{Item};
ghost use Rattle.dng.specs.Run.{kept_in, takes16, skipped, skipped16, names_of};
ghost use Rattle.dng.specs.Answer.{takes_all};
ghost use Rattle.list_survey.specs.Survey.{survey_on};
ghost use Rattle.run_refuse.specs.Plans.{plan_for, plan_of, row_plan_of, IsForm};

use dng::{Answer, RowAnswer, RowWindow, Window};
use list_survey::Survey;
use sample::Sample;

// The form of a run that goes with a kind of sample: which lists it takes, and which opcodes it skips and names.
pub trait Form: Sample {
    ghost takes: { List Item → Bool };

    ghost skip: { Class → Bool };

    fn takes(s: Survey) -> bool
        ensures { (n : ℕ) (is : List Item) → s ≡ survey_on n is → result ≡ takes is };

    fn skips(s: Survey) -> usize
        ensures { (n : ℕ) (is : List Item) → s ≡ survey_on n is → result ≡ length (names_of skip is) };

    fn write_names(list: &[u8], names: &mut [u8], preview: bool)
        ensures { names.new ≡ sets names.old 0
            (names_of skip (kept_in preview list.now)) };
}

// The f32 run takes every list.
impl Form for f32 {
    ghost takes = { takes_all };

    ghost skip = { skipped };

    fn takes(_s: Survey) -> bool {
        true
    }

    fn skips(s: Survey) -> usize {
        s.skips
    }

    fn write_names(list: &[u8], names: &mut [u8], preview: bool) {
        list_names::write_names(list, names, preview);
    }
}

// The whole-number form.
impl Form for u16 {
    ghost takes = { takes16 };

    ghost skip = { skipped16 };

    fn takes(s: Survey) -> bool {
        s.takes16
    }

    fn skips(s: Survey) -> usize {
        s.skips16
    }

    fn write_names(list: &[u8], names: &mut [u8], preview: bool) {
        list_names::write_names16(list, names, preview);
    }
}

// Proved and never called: the members above are those of the paper's two forms, so what `settle` promises of f32 and
// of u16 is what the paper says.
pub fn forms_are_the_papers()
    ensures f32 { IsForm ⟦<f32 as Form>⟧.takes ⟦<f32 as Form>⟧.skip takes_all skipped }
    ensures u16 { IsForm ⟦<u16 as Form>⟧.takes ⟦<u16 as Form>⟧.skip takes16 skipped16 }
{}

// 3 and 4, of a list that is read whole and has so many names.
fn settle_read(taken: bool, names: usize, room: usize) -> Result<usize, Answer>
    ensures { result ≡ plan_for taken names room }
{
    if !taken {
        return Err(Answer::NotTaken);
    }
    if room < names {
        return Err(Answer::Names);
    }
    Ok(names)
}

// Answer so and leave everything; or go on, with so many names to write at the end. `room` is the length of the skip
// buffer. The ranges come before the list is looked at.
pub fn settle<S: Form>(
    list: &[u8],
    w: Window,
    period: usize,
    preview: bool,
    room: usize,
) -> Result<usize, Answer>
    ensures { result ≡ plan_of S.takes S.skip list.now w period preview room }
{
    if !run_answers::in_range(w, period) {
        return Err(Answer::Range);
    }
    let found = list_survey::read(list, preview);
    if let Err(m) = found.reading {
        return Err(Answer::Malformed {
            entry: m.after,
            why: m.why,
        });
    }
    settle_read(S::takes(found.survey), S::skips(found.survey), room)
}

// The same for a lent row of n samples, the row y of the image. It names nothing and says how many opcodes were
// skipped.
pub fn settle_row(
    list: &[u8],
    w: RowWindow,
    preview: bool,
    y: usize,
    n: usize,
) -> Result<usize, RowAnswer>
    ensures { result ≡ row_plan_of list.now w preview y n }
{
    if !run_answers::row_in_range(w, y, n) {
        return Err(RowAnswer::Range);
    }
    let found = list_survey::read(list, preview);
    if let Err(m) = found.reading {
        return Err(RowAnswer::Malformed {
            entry: m.after,
            why: m.why,
        });
    }
    if !found.survey.takes_rows {
        return Err(RowAnswer::NotTaken);
    }
    Ok(found.survey.skips)
}
