// The entries of an opcode list, one header after another, each with its body as a part of the lent list.
// Positions count from the list's first byte, and every function takes any position.
#![tactic(auto)]

ghost use Rattle.std.specs.Prelude.{◌≡◌, ◌+◌, ◌-◌, ◌*◌, ◌/◌, ◌≤◌, length, ◌&&◌};
ghost use Rattle.dng.specs.declared.Reason.TheVariants.{Ends};
ghost use Rattle.dng.specs.List.{refusal, header_at, next_at, body_of, optional_of, preview_of};

use dng::{Cursor, Entry, Found, Reason, Refusal};

// The four words of a header, as they stand, with where the body lies.
fn header(list: &[u8], at: usize) -> Entry
    requires { at + 16 ≤ length list.now }
    ensures { result ≡ header_at list.now at }
{
    Entry {
        id: num_words::u32_at(list, at),
        version: num_words::u32_at(list, at + 4),
        flags: num_words::u32_at(list, at + 8),
        at: at + 16,
        len: num_words::u32_at(list, at + 12) as usize,
    }
}

// 20, of a list of n bytes: at the first word after `at` that is not whole.
fn ends(n: usize, at: usize) -> Refusal
    ensures { result ≡ refusal Ends (at + (n - at) / 4 * 4) }
{
    Refusal {
        reason: Reason::Ends,
        at: at + num_words::less(n, at) / 4 * 4,
    }
}

// The entry at a cursor; or 20, at the word of its header that is not whole; or 22, at its length. The body is compared
// with what the list has left, so that no sum can wrap.
pub fn next(list: &[u8], c: Cursor) -> Result<Found, Refusal>
    ensures { result ≡ next_at list.now c }
{
    let at = c.at;
    let n = list.len();
    if n < 16 {
        return Err(ends(n, at));
    }
    if n - 16 < at {
        return Err(ends(n, at));
    }
    let e = header(list, at);
    let len = e.len;
    if n - 16 - at < len {
        return Err(Refusal {
            reason: Reason::TooLong,
            at: at + 12,
        });
    }
    Ok(Found {
        entry: e,
        next: Cursor { at: at + 16 + len },
    })
}

// The body of an entry: the caller's own part, cut where the list ends.
pub fn body(list: &[u8], e: Entry) -> &[u8]
    ensures { result.now ≡ body_of list.now e }
{
    let at = e.at;
    let len = e.len;
    let n = list.len();
    if n <= at {
        return &list[n..];
    }
    if n - at < len {
        return &list[at..];
    }
    let end = at + len;
    &list[at..end]
}

// Flag bit 0: a reader that does not know the opcode may pass it over.
pub fn optional(e: Entry) -> bool
    ensures { result ≡ optional_of e }
{
    e.flags % 2 == 1
}

// Flag bit 1: the opcode may be left out for a preview.
pub fn skip_for_preview(e: Entry) -> bool
    ensures { result ≡ preview_of e }
{
    e.flags / 2 % 2 == 1
}

// Whether a preview leaves the entry out; a run that is none leaves out nothing.
pub fn dropped(e: Entry, preview: bool) -> bool
    ensures { result ≡ (preview && preview_of e) }
{
    preview & skip_for_preview(e)
}
