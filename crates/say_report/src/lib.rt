// What a run answered, as text: a refusal is one line, of a malformed list two; a result has a line each for the form,
// what was skipped, the totals and the verdict. The verdict is the caller's; what was skipped and what stays unrepaired
// are said beside it.
#![tactic(auto)]

ghost use Rattle.std.specs.Prelude.{◌≡◌, ◌+◌, ◌≤◌, length};
ghost use Rattle.num_text.specs.Appended.{Appended};
ghost use Rattle.say_report.specs.Report.{occurs, line, line_if, Within, skipped_text, form_text, verdict_text};
ghost use Rattle.say_report.specs.Report.{done_text, why_text, malformed_text, text_of};

use dng::{Answer, Reason, Refusal};

// By which rules the samples were run.
#[derive(Clone, Copy)]
pub enum Form {
    // whole numbers
    Whole,
    // f32, and rounded back
    Rounded,
    // f32
    Float,
}

// How often k stands among the names.
fn count(names: &[u8], k: u8) -> usize
    ensures { result ≡ occurs k names.now }
{
    names.iter().filter(|b| **b == k).count()
}

// A label, a number and the end of the line.
fn put_line(out: &mut [u8], at: usize, label: &[u8], n: u64) -> usize
    requires { at + length label.now + 21 ≤ length out.old }
    ensures { Within (length label.now + 21) out.old at (line label.now n) result
        out.new }
{
    let a = num_text::put(&mut *out, at, label);
    let b = num_text::put_number(&mut *out, a, n);
    num_text::put_byte(&mut *out, b, 10)
}

// The same where the number is not 0.
fn put_line_if(out: &mut [u8], at: usize, label: &[u8], n: u64) -> usize
    requires { at + length label.now + 21 ≤ length out.old }
    ensures { Within (length label.now + 21) out.old at (line_if label.now n) result
        out.new }
{
    if n == 0 {
        at
    } else {
        put_line(out, at, label, n)
    }
}

// A line for each kind of opcode that was skipped.
fn put_skipped(out: &mut [u8], at: usize, names: &[u8]) -> usize
    requires { at + 300 ≤ length out.old }
    ensures { Within 300 out.old at (skipped_text names.now) result out.new }
{
    let a = put_line_if(
        &mut *out,
        at,
        b"skipped WarpRectilinear: ",
        count(names, 1) as u64,
    );
    let b = put_line_if(
        &mut *out,
        a,
        b"skipped WarpFisheye: ",
        count(names, 2) as u64,
    );
    let c = put_line_if(
        &mut *out,
        b,
        b"skipped TrimBounds: ",
        count(names, 6) as u64,
    );
    let d = put_line_if(
        &mut *out,
        c,
        b"skipped empty MapTable: ",
        count(names, 7) as u64,
    );
    put_line_if(
        &mut *out,
        d,
        b"skipped unknown opcode: ",
        count(names, 0) as u64,
    )
}

fn put_form(out: &mut [u8], at: usize, form: Form) -> usize
    requires { at + 40 ≤ length out.old }
    ensures { Within 40 out.old at (form_text form) result out.new }
{
    match form {
        Form::Whole => num_text::put(out, at, b"0: done in whole numbers\n"),
        Form::Rounded => num_text::put(out, at, b"0: done in f32, rounded back\n"),
        Form::Float => num_text::put(out, at, b"0: done in f32\n"),
    }
}

fn put_verdict(out: &mut [u8], at: usize, whole: bool) -> usize
    requires { at + 40 ≤ length out.old }
    ensures { Within 40 out.old at (verdict_text whole) result out.new }
{
    if whole {
        num_text::put(out, at, b"the frame is whole\n")
    } else {
        num_text::put(out, at, b"the frame is not whole\n")
    }
}

// What a run did: `n` names in the buffer, the totals, how many samples were held to the largest value, and the
// verdict.
fn put_done(
    out: &mut [u8],
    form: Form,
    names: &[u8],
    n: usize,
    repaired: u64,
    left: u64,
    held: u64,
    whole: bool,
) -> usize
    requires { 512 ≤ length out.old }
    ensures { Within 512 out.old 0 (done_text form names.now n repaired left held whole) result
        out.new }
{
    let k = n.min(names.len());
    let a = put_form(&mut *out, 0, form);
    let b = put_skipped(&mut *out, a, &names[..k]);
    let c = put_line(&mut *out, b, b"repaired: ", repaired);
    let d = put_line(&mut *out, c, b"left: ", left);
    let e = put_line_if(&mut *out, d, b"held to the largest value: ", held);
    put_verdict(&mut *out, e, whole)
}

// The number, what a technician can make of it, and the byte.
fn put_why(out: &mut [u8], reason: Reason, at: u64) -> usize
    requires { 200 ≤ length out.old }
    ensures { Within 200 out.old 0 (line (why_text reason) at) result out.new }
{
    match reason {
        Reason::Ends => put_line(
            out,
            0,
            b"20: the list is cut short, or its count cannot be right: it ends inside the count or a header, at byte ",
            at,
        ),
        Reason::TooMany => put_line(
            out,
            0,
            b"21: the number of entries cannot be right: it is above 4096, at byte ",
            at,
        ),
        Reason::TooLong => put_line(
            out,
            0,
            b"22: the list is cut short, or a length cannot be right: a body is longer than the rest, at byte ",
            at,
        ),
        Reason::Inside => put_line(
            out,
            0,
            b"23: a length cannot be right for its entry's kind: the body ends inside a field, at byte ",
            at,
        ),
        Reason::Count => put_line(
            out,
            0,
            b"24: a count cannot be right: it breaks its limit, or the body is shorter than it says, at byte ",
            at,
        ),
        Reason::Degree => put_line(
            out,
            0,
            b"25: a degree cannot be right: it is above 8, at byte ",
            at,
        ),
    }
}

// A malformed list, after so many whole entries.
fn put_malformed(out: &mut [u8], entry: u64, why: Refusal) -> usize
    requires { 512 ≤ length out.old }
    ensures { Within 512 out.old 0 (malformed_text entry why) result out.new }
{
    let reason = why.reason;
    let a = put_why(&mut *out, reason, why.at as u64);
    put_line(&mut *out, a, b"whole entries before: ", entry)
}

fn put_answer(out: &mut [u8], a: Answer, form: Form, names: &[u8], held: u64, whole: bool) -> usize
    requires { 512 ≤ length out.old }
    ensures { Within 512 out.old 0 (text_of a form names.now held whole) result
        out.new }
{
    match a {
        Answer::Done {
            names: n,
            repaired,
            left,
        } => put_done(out, form, names, n, repaired, left, held, whole),
        Answer::Range => put_text(out, b"1: a number is outside its range\n"),
        Answer::Malformed { entry, why } => put_malformed(out, entry as u64, why),
        Answer::NotTaken => put_text(out, b"3: the form does not take the list\n"),
        Answer::Names => put_text(out, b"4: more skipped opcodes than names fit\n"),
        Answer::Marks { opcode } => {
            put_line(
                out,
                0,
                b"5: more bad pixels than the scratch holds, at opcode ",
                opcode as u64,
            )
        }
    }
}

fn put_text(out: &mut [u8], bytes: &[u8]) -> usize
    requires { length bytes.now ≤ length out.old }
    ensures { Within (length bytes.now) out.old 0 bytes.now result
        out.new }
{
    num_text::put(out, 0, bytes)
}

// The text of an answer at the start of a buffer, and where it ends. `whole` is the frame's verdict, of which only a
// result speaks.
pub fn write(
    out: &mut [u8; 512],
    a: Answer,
    form: Form,
    names: &[u8],
    held: u64,
    whole: bool,
) -> usize
    ensures { Within 512 out.old 0 (text_of a form names.now held whole) result
        out.new }
{
    put_answer(out, a, form, names, held, whole)
}
