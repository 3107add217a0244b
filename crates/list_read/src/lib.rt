// A list, entry by entry, and whether it can be read whole; if not, after how many entries, why, and at which byte.
#![tactic(auto)]

ghost use Rattle.std.specs.Prelude.{◌≡◌};
ghost use Rattle.dng.specs.List.{step_at, reading_of};
ghost use Rattle.list_read.specs.Count.{entries_of, count_of, reading_from};

use dng::{Cursor, Found, Malformed, Opcode, Reason, Refusal, Step};

// The entry at a cursor, header and body.
pub fn step(list: &[u8], c: Cursor) -> Result<Step, Refusal>
    ensures { result ≡ step_at list.now c }
{
    let Found { entry, next } = list_entries::next(list, c)?;
    let op = list_bodies::parse(list, entry)?;
    Ok(Step { entry, op, next })
}

// How many entries a list has; or 20 of a count that is cut, 21 of one above the limit.
pub fn entries_in(list: &[u8]) -> Result<usize, Refusal>
    ensures { result ≡ entries_of list.now }
{
    let Ok(n) = num_words::u32_in(list, 0, list.len()) else {
        return Err(Refusal {
            reason: Reason::Ends,
            at: 0,
        });
    };
    if Opcode::MAX_OPCODES < n {
        return Err(Refusal {
            reason: Reason::TooMany,
            at: 0,
        });
    }
    Ok(n as usize)
}

// How many steps a loop over a list takes, from the cursor at 4 on; fewer where an entry is malformed.
pub fn count(list: &[u8]) -> usize
    ensures { result ≡ count_of list.now }
{
    entries_in(list).unwrap_or(0)
}

// n entries after the count, to the last or to the first malformed one.
fn read_entries(list: &[u8], n: usize) -> Result<usize, Malformed>
    ensures { result ≡ reading_from list.now n }
{
    let mut c = Cursor { at: 4 };
    for k in 0..n {
        match step(list, c) {
            Ok(s) => c = s.next,
            Err(why) => return Err(Malformed { after: k, why }),
        }
    }
    Ok(n)
}

// Reads a list to its end or to its first malformed entry.
pub fn read(list: &[u8]) -> Result<usize, Malformed>
    ensures { result ≡ reading_of list.now }
{
    match entries_in(list) {
        Ok(n) => read_entries(list, n),
        Err(why) => Err(Malformed { after: 0, why }),
    }
}
