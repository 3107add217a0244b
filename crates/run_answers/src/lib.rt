// The ranges of document 01, and the papers' number for each answer.
#![tactic(auto)]

ghost use Rattle.std.specs.Prelude.{◌≡◌};
ghost use Rattle.dng.specs.List.{reason_number};
ghost use Rattle.dng.specs.Answer.{in_range, row_in_range, malformed_numbers, numbers_of, reading_numbers_of, row_numbers_of};

use dng::{Answer, Malformed, Numbers, Reason, Refusal, RowAnswer, RowWindow, Settings, Window};

// Whether every number of a window and a period is in its range: refusal 1 where not.
pub fn in_range(w: Window, period: usize) -> bool
    ensures { result ≡ in_range w period }
{
    (w.width <= Window::MAX_SIZE)
        & ((w.height <= Window::MAX_SIZE)
            & ((w.stride <= Window::MAX_SIZE)
                & ((1 <= w.planes)
                    & ((w.planes <= Window::MAX_PLANES)
                        & ((w.x0 <= Window::MAX_PLACE)
                            & ((w.y0 <= Window::MAX_PLACE)
                                & ((w.full_width <= Window::MAX_PLACE)
                                    & ((w.full_height <= Window::MAX_PLACE)
                                        & (period <= Settings::MAX_PERIOD)))))))))
}

// The same for a lent row of n samples, the row y of the image. The product is asked for only where it cannot wrap.
pub fn row_in_range(w: RowWindow, y: usize, n: usize) -> bool
    ensures { result ≡ row_in_range w y n }
{
    let width = w.width;
    let planes = w.planes;
    if Window::MAX_SIZE < width {
        return false;
    }
    if planes < 1 {
        return false;
    }
    if Window::MAX_PLANES < planes {
        return false;
    }
    (w.x0 <= Window::MAX_PLACE)
        & ((w.full_width <= Window::MAX_PLACE)
            & ((w.full_height <= Window::MAX_PLACE)
                & ((y <= RowWindow::MAX_ROW) & (n <= width * planes))))
}

// The paper's number of a reason.
pub fn reason_number(r: Reason) -> u32
    ensures { result ≡ reason_number r }
{
    match r {
        Reason::Ends => 20,
        Reason::TooMany => 21,
        Reason::TooLong => 22,
        Reason::Inside => 23,
        Reason::Count => 24,
        Reason::Degree => 25,
    }
}

// A malformed list, after so many entries.
pub fn malformed_numbers(entry: usize, why: Refusal) -> Numbers
    ensures { result ≡ malformed_numbers entry why }
{
    let reason = why.reason;
    Numbers {
        number: reason_number(reason),
        entry: entry,
        offset: why.at,
        opcode: 0,
        names: 0,
        repaired: 0,
        left: 0,
    }
}

fn refused(number: u32, opcode: usize) -> Numbers
    ensures { result ≡ record {
      number = number;
      entry = 0;
      offset = 0;
      opcode = opcode;
      names = 0;
      repaired = 0;
      left = 0;
    } }
{
    Numbers {
        number: number,
        entry: 0,
        offset: 0,
        opcode: opcode,
        names: 0,
        repaired: 0,
        left: 0,
    }
}

// The paper's number and values for an answer of a run.
pub fn numbers(a: Answer) -> Numbers
    ensures { result ≡ numbers_of a }
{
    match a {
        Answer::Done {
            names,
            repaired,
            left,
        } => Numbers {
            number: 0,
            entry: 0,
            offset: 0,
            opcode: 0,
            names: names,
            repaired: repaired,
            left: left,
        },
        Answer::Range => refused(1, 0),
        Answer::Malformed { entry, why } => malformed_numbers(entry, why),
        Answer::NotTaken => refused(3, 0),
        Answer::Names => refused(4, 0),
        Answer::Marks { opcode } => refused(5, opcode),
    }
}

// The same for reading alone, and for a row.
pub fn reading_numbers(a: Result<usize, Malformed>) -> Numbers
    ensures { result ≡ reading_numbers_of a }
{
    match a {
        Ok(_) => refused(0, 0),
        Err(m) => malformed_numbers(m.after, m.why),
    }
}

pub fn row_numbers(a: RowAnswer) -> Numbers
    ensures { result ≡ row_numbers_of a }
{
    match a {
        RowAnswer::Done { skipped: _ } => refused(0, 0),
        RowAnswer::Range => refused(1, 0),
        RowAnswer::Malformed { entry, why } => malformed_numbers(entry, why),
        RowAnswer::NotTaken => refused(3, 0),
    }
}
