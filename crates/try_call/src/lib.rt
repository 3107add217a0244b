// Calls as the comparison with the Rust stores them, read one after the other, and bytes as text. compare/README.md has
// the format.
#![tactic(auto)]

ghost use Rattle.std.specs.Prelude.{◌≡◌, ◌++◌, ◌+◌, ◌*◌, ◌≤◌, ◌<◌, length, take};
ghost use Rattle.std.proofs.Math.Seq.{paste};
ghost use Rattle.num_words.specs.Words.{big};
ghost use Rattle.try_call.specs.Calls.{
  Inside,
  Counted,
  window_at,
  fields_of,
  small_of,
  kept_of,
  with_list,
  Read,
};
ghost use Rattle.try_call.specs.Hex.{digit_of, pair_of, hex_to};

use dng::Window;

// A part of the input.
#[derive(Clone, Copy)]
pub struct Span {
    pub start: usize,
    pub end: usize,
}

// One call: which function, where its list and its samples stand in the input, and how long the lent buffers are.
#[derive(Clone, Copy)]
pub struct Call {
    pub form: u32,
    pub list: Span,
    pub window: Window,
    pub period: usize,
    pub scale: f32,
    pub y: usize,
    pub marks: usize,
    pub names: usize,
    pub samples: Span,
}

impl Call {
    pub const READ: u32 = 0;

    pub const F32: u32 = 1;

    pub const U16: u32 = 2;

    pub const ROW: u32 = 3;

    // a form and 4: the same call as a preview; reading takes no notice of it
    pub const PREVIEW: u32 = 4;

    pub const LAST: u32 = 7;

    pub const MAX_LENT: usize = 64;

    pub const MAX_SAMPLE_BYTES: usize = 256;
}

// ---- a call

fn size(s: &[u8], at: usize) -> usize
    ensures { result ≡ big 4 s.now at }
{
    num_words::u32_at(s, at) as usize
}

// The bytes behind the length word at a position, if the input has them all.
fn counted(s: &[u8], at: usize) -> Option<Span>
    ensures { Counted s.now at result }
{
    if s.len() < 4 {
        return None;
    }
    let last = s.len() - 4;
    if last < at {
        return None;
    }
    let n = size(s, at);
    if last - at < n {
        return None;
    }
    Some(Span {
        start: at + 4,
        end: at + 4 + n,
    })
}

// The same, or none, at the end of the input, where it is broken.
pub fn span_at(s: &[u8], at: usize) -> Span
    ensures { Inside s.now result }
{
    counted(s, at).unwrap_or(Span {
        start: s.len(),
        end: s.len(),
    })
}

fn window(s: &[u8], at: usize) -> Window
    requires { at ≤ length s.now }
    ensures { result ≡ window_at s.now at }
{
    Window {
        width: size(s, at),
        height: size(s, at + 4),
        planes: size(s, at + 8),
        stride: size(s, at + 12),
        x0: size(s, at + 16),
        y0: size(s, at + 20),
        full_width: size(s, at + 24),
        full_height: size(s, at + 28),
    }
}

// The call at a position, whose list and samples have been found.
fn fields(s: &[u8], at: usize, list: Span, samples: Span) -> Call
    requires { list.end ≤ length s.now }
    ensures { result ≡ fields_of s.now at list samples }
{
    let b = list.end;
    Call {
        form: num_words::u32_at(s, at),
        list: list,
        window: window(s, b),
        period: size(s, b + 32),
        scale: num_words::f32_at(s, b + 36),
        y: size(s, b + 40),
        marks: size(s, b + 44),
        names: size(s, b + 48),
        samples: samples,
    }
}

// Whether the form is one of the four, as a preview or not, and what is to be lent fits the arrays that are lent.
fn is_small(c: Call) -> bool
    requires { c.samples.start ≤ c.samples.end }
    ensures { result ≡ small_of c }
{
    let p = c.samples;
    (c.form <= Call::LAST)
        & (c.marks <= Call::MAX_LENT)
        & (c.names <= Call::MAX_LENT)
        & (p.end - p.start <= Call::MAX_SAMPLE_BYTES)
}

fn kept(c: Call) -> Option<Call>
    requires { c.samples.start ≤ c.samples.end }
    ensures { result ≡ kept_of c }
{
    if is_small(c) { Some(c) } else { None }
}

// The rest of a call, from the end of its list on.
fn with_list(s: &[u8], at: usize, list: Span) -> Option<Call>
    requires { Inside s.now list }
    ensures { result ≡ with_list s.now at (Some list) }
{
    let samples = counted(s, list.end + 52)?;
    kept(fields(s, at, list, samples))
}

// The call at a position.
pub fn call_at(s: &[u8], at: usize) -> Option<Call>
    ensures { Read s.now at result }
{
    if s.len() < at {
        return None;
    }
    with_list(s, at, counted(s, at + 4)?)
}

// ---- bytes as text

fn digit(d: u8) -> u8
    requires { d < 16 }
    ensures { result ≡ digit_of d }
{
    if d < 10 { 48 + d } else { 87 + d }
}

fn put_pair(text: &mut [u8], at: usize, b: u8)
    requires { at + 2 ≤ length text.old }
    ensures { take (at + 2) text.new ≡ take at text.old ++ pair_of b }
{
    text[at] = digit(b / 16);
    text[at + 1] = digit(b % 16);
}

// Two digits for each byte, at the start of a text.
pub fn put_hex(bytes: &[u8], text: &mut [u8]) -> usize
    requires { length bytes.now * 2 ≤ length text.old }
    ensures { (result ≡ length bytes.now * 2)
        × (take result text.new ≡ hex_to bytes.now (length bytes.now)) }
{
    for (i, b) in bytes.iter().enumerate() {
        put_pair(text, i * 2, *b);
    }
    bytes.len() * 2
}

// The bytes at the start of room that is long enough.
pub fn copy(bytes: &[u8], room: &mut [u8])
    requires { length bytes.now ≤ length room.old }
    ensures { room.new ≡ paste room.old 0 bytes.now
        (length bytes.now) }
{
    room[..bytes.len()].copy_from_slice(bytes);
}
