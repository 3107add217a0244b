// A list on a window's samples: the whole-window run as a caller knows it, of either sample kind. Document 01, 'What
// comes back'.
#![tactic(auto)]

ghost use Rattle.std.specs.Prelude.{◌≡◌, length};
ghost use Rattle.dng.specs.Answer.{frame_of, run_out, f32_out, u16_out, Ran};
ghost use Rattle.sample.specs.Kinds.{kind_of};
ghost use Rattle.run_window.specs.Runs.{answer_of, Is, IsRun};

use dng::{Answer, Settings, Window};
use run_opcodes::WindowStep;
use run_refuse::Form;
use sample::Sample;

// 1, 20 to 25, 3 and 4, then opcode by opcode 5, and then the names: on any refusal these stay. The scratch is left as
// it is then.
fn attempt<S: Form + WindowStep>(
    list: &[u8],
    samples: &mut [S],
    w: Window,
    set: Settings,
    marks: &mut [u32],
    names: &mut [u8],
) -> Result<Answer, Answer>
    ensures { Is (run_out
        (kind_of S.none S.to_float S.of_mean S.constant_at S.equals S.rule (frame_of w set.scale))
        S.takes S.skip w set.period set.preview (record { marks = length marks.old })
        list.now samples.old names.old)
        (answer_of result) samples.new names.new }
{
    let n = run_refuse::settle::<S>(list, w, set.period, set.preview, names.len())?;
    let t = run_opcodes::perform(list, samples, w, set, marks)?;
    S::write_names(list, names, set.preview);
    Ok(Answer::Done {
        names: n,
        repaired: t.repaired,
        left: t.left,
    })
}

// Runs a list on samples, by their form's rules. The scratch holds only zeros afterwards, whatever is answered.
pub fn run<S: Form + WindowStep>(
    list: &[u8],
    samples: &mut [S],
    w: Window,
    set: Settings,
    marks: &mut [u32],
    names: &mut [u8],
) -> Answer
    ensures { Ran (run_out
        (kind_of S.none S.to_float S.of_mean S.constant_at S.equals S.rule (frame_of w set.scale))
        S.takes S.skip w set.period set.preview (record { marks = length marks.old })
        list.now samples.old names.old)
        (record { marks = length marks.old })
        result samples.new names.new marks.new }
{
    let r = attempt(list, samples, w, set, &mut *marks, names);
    num_sorted::clear(marks); // at every return
    match r {
        Ok(answer) => answer,
        Err(answer) => answer,
    }
}

// Proved and never called: with the members of f32 and of u16 the run is the paper's, so what `run` promises of them is
// what the paper says.
pub fn runs_are_the_papers()
    ensures f32 { IsRun ⟦<f32 as Sample>⟧.none ⟦<f32 as Sample>⟧.to_float ⟦<f32 as Sample>⟧.of_mean
        ⟦<f32 as Sample>⟧.constant_at ⟦<f32 as Sample>⟧.equals ⟦<f32 as Sample>⟧.rule ⟦<f32 as Form>⟧.takes
        ⟦<f32 as Form>⟧.skip f32_out }
    ensures u16 { IsRun ⟦<u16 as Sample>⟧.none ⟦<u16 as Sample>⟧.to_float ⟦<u16 as Sample>⟧.of_mean
        ⟦<u16 as Sample>⟧.constant_at ⟦<u16 as Sample>⟧.equals ⟦<u16 as Sample>⟧.rule ⟦<u16 as Form>⟧.takes
        ⟦<u16 as Form>⟧.skip (λ w set. u16_out w set.period set.preview) }
{}
