// A frame as a binary greymap, netpbm's P5: its header, and its raster as samples and back.
// The header and the bytes are defined in specs/Pgm; every function here is equal to its definition for every input.
#![tactic(auto)]

ghost use Rattle.std.specs.Prelude.{◌≡◌, ◌+◌, ◌-◌, ◌*◌, ◌/◌, ◌%◌, ◌≤◌, ◌<◌, min, ltb, length, get_or};
ghost use Rattle.pointwise.specs.Points.{each};
ghost use Rattle.say_pgm.specs.Pgm.{white, line_end, goes_on, inside, past, is_digit, Held, sound, p5, header_of, raster_len, InSizes, frame_on, frame_of, word_of, sample_at, byte_at, over, Encoded, area_of, float_at, float_byte_at, header_text, Put};
ghost use Rattle.num_text.specs.Appended.{Appended};

use std::fmt;

// What stands at the start of a file; `at` is where the raster starts.
#[derive(Clone, Copy)]
pub struct Header {
    pub width: usize,
    pub height: usize,
    pub maxval: usize,
    pub at: usize,
}

// A number of the header: where its digits start, where they end, and what they say.
#[derive(Clone, Copy)]
struct Field {
    from: usize,
    end: usize,
    value: usize,
}

// ---- white space and comments

// Space, TAB, LF and CR.
fn is_white(b: u8) -> bool
    ensures { result ≡ white b }
{
    (b == 32) | ((b == 9) | ((b == 10) | (b == 13)))
}

fn ends_line(b: u8) -> bool
    ensures { result ≡ line_end b }
{
    (b == 10) | (b == 13)
}

// Whether b is passed over; `comment` says that it stands in a comment.
fn goes_on(comment: bool, b: u8) -> bool
    ensures { result ≡ goes_on comment b }
{
    if comment {
        true
    } else {
        is_white(b) | (b == 35)
    }
}

// Whether the byte after b stands in a comment.
fn in_comment(comment: bool, b: u8) -> bool
    ensures { result ≡ inside comment b }
{
    if comment { !ends_line(b) } else { b == 35 }
}

// Past the white space and the comments at a position.
fn skip(bytes: &[u8], at: usize) -> usize
    ensures { result ≡ past bytes.now at }
{
    let mut comment = false;
    for i in at..bytes.len() {
        let b = bytes[i];
        if !goes_on(comment, b) {
            return i;
        }
        comment = in_comment(comment, b);
    }
    at.max(bytes.len())
}

// ---- numbers

fn is_digit(b: u8) -> bool
    ensures { result ≡ is_digit b }
{
    (48 <= b) & (b <= 57)
}

// What a digit says.
fn digit(b: u8) -> usize
    ensures { (result ≡ b - 48) × (result < 256) }
{
    usize::from(b.saturating_sub(48))
}

// One digit more, held to one more than any field takes: digits without end must not wrap.
fn more(value: usize, d: usize) -> usize
    requires { (value ≤ 65537) × (d < 256) }
    ensures { result ≡ min 65537 (value * 10 + d) }
{
    (value * 10 + d).min(65537)
}

// The digits at a position.
fn number(bytes: &[u8], at: usize) -> Field
    ensures { Held bytes.now at result }
{
    let mut value = 0;
    for i in at..bytes.len() {
        let b = bytes[i];
        if !is_digit(b) {
            return Field {
                from: at,
                end: i,
                value,
            };
        }
        value = more(value, digit(b));
    }
    Field {
        from: at,
        end: at.max(bytes.len()),
        value,
    }
}

// The number after the white space at a position.
fn next_number(bytes: &[u8], at: usize) -> Field
    ensures { Held bytes.now (past bytes.now at) result }
{
    number(bytes, skip(bytes, at))
}

// ---- the header

// White space after `at`, a digit after it, and a value from `low` to `high`.
fn is_sound(at: usize, f: Field, low: usize, high: usize) -> bool
    ensures { result ≡ sound at f low high }
{
    (at < f.from) & ((f.from < f.end) & ((low <= f.value) & (f.value <= high)))
}

// The byte at a position, 0 past the end.
fn byte(s: &[u8], at: usize) -> u8
    ensures { result ≡ get_or s.now at 0 }
{
    s.get(at).copied().unwrap_or(0)
}

fn is_p5(bytes: &[u8]) -> bool
    ensures { result ≡ p5 bytes.now }
{
    (byte(bytes, 0) == 80) & (byte(bytes, 1) == 53)
}

// The header at the start of a file.
pub fn read_header(bytes: &[u8]) -> Option<Header>
    ensures { result ≡ header_of bytes.now }
{
    let w = next_number(bytes, 2);
    let first = w.end;
    let h = next_number(bytes, first);
    let second = h.end;
    let m = next_number(bytes, second);
    let third = m.end;
    let ok = is_p5(bytes)
        & (is_sound(2, w, 0, 65536)
            & (is_sound(first, h, 0, 65536)
                & (is_sound(second, m, 1, 65535) & is_white(byte(bytes, third)))));
    if ok {
        Some(Header {
            width: w.value,
            height: h.value,
            maxval: m.value,
            at: third + 1,
        })
    } else {
        None
    }
}

// ---- a frame in a file

// What a header says, with room for its `samples` and a raster that is all there, from `at` to `end`.
#[derive(Clone, Copy)]
pub struct Frame {
    pub width: usize,
    pub height: usize,
    pub maxval: usize,
    pub samples: usize,
    pub at: usize,
    pub end: usize,
}

// Why a file has no frame that can be read.
#[derive(Clone, Copy)]
pub enum FrameError {
    Broken,
    TooLarge,
    Short,
}

impl fmt::Display for FrameError {
    fn fmt<W: fmt::Write>(&self, f: &mut fmt::Formatter<W>) -> fmt::Result {
        match self {
            FrameError::Broken => f.write_str("no binary greymap (P5)"),
            FrameError::TooLarge => f.write_str("too many samples"),
            FrameError::Short => f.write_str("the raster is cut short"),
        }
    }
}

// How many bytes n samples are.
fn raster_len(n: usize, maxval: usize) -> usize
    requires { n ≤ 4294967296 }
    ensures { result ≡ raster_len n maxval }
{
    if maxval < 256 { n } else { 2 * n }
}

// The frame of a header, in a file of len bytes.
fn sized(head: Header, len: usize, most: usize) -> Result<Frame, FrameError>
    requires { InSizes head.width head.height head.at len }
    ensures { result ≡ frame_on most len (Some head) }
{
    let Header {
        width,
        height,
        maxval,
        at,
    } = head;
    let samples = width * height;
    if most < samples {
        return Err(FrameError::TooLarge);
    }
    let bytes = raster_len(samples, maxval);
    if len - at < bytes {
        return Err(FrameError::Short);
    }
    Ok(Frame {
        width,
        height,
        maxval,
        samples,
        at,
        end: at + bytes,
    })
}

// The frame at the start of a file, of at most `most` samples.
pub fn read_frame(bytes: &[u8], most: usize) -> Result<Frame, FrameError>
    ensures { result ≡ frame_of bytes.now most }
{
    match read_header(bytes) {
        Some(head) => sized(head, bytes.len(), most),
        None => Err(FrameError::Broken),
    }
}

// ---- a number by itself

// The number from 0 to 65,536 that a word is.
pub fn read_number(bytes: &[u8]) -> Option<usize>
    ensures { result ≡ word_of bytes.now }
{
    let f = number(bytes, 0);
    let value = f.value;
    if (0 < f.end) & ((f.end == bytes.len()) & (value <= 65536)) {
        Some(value)
    } else {
        None
    }
}

// ---- the raster

// The sample at a place: one byte where the largest value is below 256, otherwise two, the high one first.
fn sample_of(raster: &[u8], maxval: usize, i: usize) -> u16
    ensures { result ≡ sample_at raster.now maxval i }
{
    if maxval < 256 { // it fits a byte
        byte(raster, i) as u16
    } else if i < raster.len() {
        num_words::u16_at(raster, 2 * i)
    } else {
        0
    }
}

// Samples from a raster, 0 where it ends too soon.
pub fn decode(raster: &[u8], maxval: usize, samples: &mut [u16])
    ensures { samples.new ≡ each (λ i v. sample_at raster.now maxval i)
        samples.old }
{
    for (i, v) in samples.iter_mut().enumerate() {
        *v = sample_of(raster, maxval, i);
    }
}

// A sample held to the largest value.
fn held(v: u16, maxval: usize) -> u16
    ensures { result ≡ min v maxval }
{
    (v as usize).min(maxval) as u16
}

fn low_byte(v: u16) -> u8
    ensures { result ≡ v % 256 }
{
    (v % 256) as u8
}

fn high_byte(v: u16) -> u8
    ensures { result ≡ v / 256 }
{
    (v / 256) as u8
}

// The byte of a raster at a place, `old` past the samples.
fn byte_of(samples: &[u16], maxval: usize, j: usize, old: u8) -> u8
    ensures { result ≡ byte_at samples.now maxval j old }
{
    if maxval < 256 {
        if j < samples.len() {
            low_byte(held(samples[j], maxval))
        } else {
            old
        }
    } else if j / 2 < samples.len() {
        let i = j / 2;
        let v = held(samples[i], maxval);
        if j % 2 == 0 {
            high_byte(v)
        } else {
            low_byte(v)
        }
    } else {
        old
    }
}

// A raster from samples; what lies past them stays.
fn fill(samples: &[u16], maxval: usize, out: &mut [u8])
    ensures { out.new ≡ each (byte_at samples.now maxval) out.old }
{
    for (j, b) in out.iter_mut().enumerate() {
        *b = byte_of(samples, maxval, j, *b);
    }
}

// How many samples lie above the largest value.
fn count_over(samples: &[u16], maxval: usize) -> usize
    ensures { result ≡ over maxval samples.now }
{
    samples.iter().filter(|v| maxval < **v as usize).count()
}

// A raster from samples, each held to the largest value, and how many were held.
pub fn encode(samples: &[u16], maxval: usize, out: &mut [u8]) -> usize
    ensures { Encoded samples.now maxval out.old result out.new }
{
    fill(samples, maxval, out);
    count_over(samples, maxval)
}

// ---- raw frames of f32, little-endian
// One generic for these and a greymap's `decode` and `encode` would be no plainer: an f32 has no largest value, no case
// of one byte and none that is held.

// How many samples a frame has; one more than any where a side is too long.
pub fn area(width: usize, height: usize) -> usize
    ensures { result ≡ area_of width height }
{
    if 65536 < width {
        return 4294967297;
    }
    if 65536 < height {
        return 4294967297;
    }
    width * height
}

fn float_of(raster: &[u8], i: usize) -> f32
    ensures { result ≡ float_at raster.now i }
{
    if i <= raster.len() / 4 {
        num_words::f32_from(raster, 4 * i)
    } else {
        0.0
    }
}

// Samples from four bytes each; +0 where the raster ends too soon.
pub fn decode_f32(raster: &[u8], samples: &mut [f32])
    ensures { samples.new ≡ each (λ i v. float_at raster.now i) samples.old }
{
    for (i, v) in samples.iter_mut().enumerate() {
        *v = float_of(raster, i);
    }
}

fn float_byte(samples: &[f32], j: usize, old: u8) -> u8
    ensures { result ≡ float_byte_at samples.now j old }
{
    let i = j / 4;
    if i < samples.len() {
        num_words::bits_of(samples[i]).to_le_bytes()[j % 4]
    } else {
        old
    }
}

// A raster from samples, a NaN in its one fixed pattern; what lies past them stays.
pub fn encode_f32(samples: &[f32], out: &mut [u8])
    ensures { out.new ≡ each (float_byte_at samples.now) out.old }
{
    for (j, b) in out.iter_mut().enumerate() {
        *b = float_byte(samples, j, *b);
    }
}

// ---- a header, written

// Bytes and a number behind them.
fn put_after(out: &mut [u8], at: usize, bytes: &[u8], n: u64) -> usize
    requires { at + length bytes.now + 20 ≤ length out.old }
    ensures { Put out.old at bytes.now n result out.new }
{
    let end = num_text::put(&mut *out, at, bytes);
    num_text::put_number(&mut *out, end, n)
}

fn put_header(out: &mut [u8], width: usize, height: usize, maxval: usize) -> usize
    requires { 66 ≤ length out.old }
    ensures { Appended out.old 0 (header_text width height maxval) result out.new }
{
    let a = put_after(&mut *out, 0, b"P5\n", width as u64);
    let b = put_after(&mut *out, a, b" ", height as u64);
    let c = put_after(&mut *out, b, b"\n", maxval as u64);
    num_text::put_byte(&mut *out, c, 10)
}

// A header at the start of a buffer that holds any, and where it ends.
pub fn write_header(out: &mut [u8; 66], width: usize, height: usize, maxval: usize) -> usize
    ensures { Appended out.old 0 (header_text width height maxval) result out.new }
{
    put_header(out, width, height, maxval)
}
