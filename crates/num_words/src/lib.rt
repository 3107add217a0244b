// Numbers that stand in bytes, read and written at any position: a byte past the end counts as 0, a store past the end
// is dropped.
// A word inside is one load or store behind one test. A word across or past the end goes byte by byte, in a function of
// its own.
#![tactic(auto)]

ghost use Rattle.std.specs.Prelude.{◌≡◌, ◌+◌, ◌-◌, ◌*◌, ◌/◌, ◌%◌, ◌<◌, ◌≤◌, length, from_bits, slice_index, slice_set, to_bits};
ghost use Rattle.std.specs.Float.{binary32, binary64};
ghost use Rattle.num_words.specs.Words.{big, little, put, word_in};

// x, with its bound for the sums below.
fn wide(x: u8) -> u64
    ensures { (result ≡ x) × (result < 256) }
{
    x as u64
}

// n less k, or 0. Of a length it says how many positions have k more bytes behind them: one comparison with it is the
// whole range test, and it moves out of a loop.
pub fn less(n: usize, k: usize) -> usize
    ensures { result ≡ n - k }
{
    if k < n { n - k } else { 0 }
}

// The byte at a position, 0 past the end.
fn byte(s: &[u8], at: usize) -> u64
    ensures { (result ≡ slice_index s.now at) × (result < 256) }
{
    if at < s.len() { wide(s[at]) } else { 0 }
}

// ---- big-endian, the word inside

fn two(s: &[u8], at: usize) -> u16
    requires { at + 2 ≤ length s.now }
    ensures { result ≡ big 2 s.now at }
{
    let a = wide(s[at]);
    let b = wide(s[at + 1]);
    (a * 256 + b) as u16
}

fn four(s: &[u8], at: usize) -> u32
    requires { at + 4 ≤ length s.now }
    ensures { result ≡ big 4 s.now at }
{
    let a = wide(s[at]);
    let b = wide(s[at + 1]);
    let c = wide(s[at + 2]);
    let d = wide(s[at + 3]);
    (((a * 256 + b) * 256 + c) * 256 + d) as u32
}

// Four bytes at once and not two: the compiler joins the eight loads into one only so.
fn eight(s: &[u8], at: usize) -> u64
    requires { at + 8 ≤ length s.now }
    ensures { result ≡ big 8 s.now at }
{
    (four(s, at) as u64) * 0x1_0000_0000 + four(s, at + 4) as u64
}

// ---- big-endian, the word across or past the end

fn pair(s: &[u8], at: usize) -> u16
    requires { at ≤ length s.now + 6 }
    ensures { result ≡ big 2 s.now at }
{
    if at < less(s.len(), 1) {
        two(s, at)
    } else {
        (byte(s, at) * 256 + byte(s, at + 1)) as u16
    }
}

fn half(s: &[u8], at: usize) -> u32
    requires { at ≤ length s.now + 4 }
    ensures { result ≡ big 4 s.now at }
{
    if at < less(s.len(), 3) {
        four(s, at)
    } else {
        (pair(s, at) as u32) * 65536 + pair(s, at + 2) as u32
    }
}

// Eight bytes from at on. The three widths share it: called from several places it is not inlined, and the readers stay
// small enough to be.
fn edge(s: &[u8], at: usize) -> u64
    ensures { result ≡ big 8 s.now at }
{
    if at < s.len() {
        (half(s, at) as u64) * 0x1_0000_0000 + half(s, at + 4) as u64
    } else {
        0
    }
}

// ---- big-endian, at any position
// The slice is lent anew, `&s[..]`, on the rare way only: on the common way it then never leaves the registers.

pub fn u16_at(s: &[u8], at: usize) -> u16
    ensures { result ≡ big 2 s.now at }
{
    if at < less(s.len(), 1) {
        two(s, at)
    } else {
        (edge(&s[..], at) / 0x1_0000_0000_0000) as u16
    }
}

pub fn u32_at(s: &[u8], at: usize) -> u32
    ensures { result ≡ big 4 s.now at }
{
    if at < less(s.len(), 3) {
        four(s, at)
    } else {
        (edge(&s[..], at) / 0x1_0000_0000) as u32
    }
}

pub fn u64_at(s: &[u8], at: usize) -> u64
    ensures { result ≡ big 8 s.now at }
{
    if at < less(s.len(), 7) {
        eight(s, at)
    } else {
        edge(&s[..], at)
    }
}

// ---- big-endian, in a part that has `left` bytes from `at` on: the value, or where the word that is not whole begins

// The offset of the first field that is not whole.
#[derive(Clone, Copy)]
pub struct Cut {
    pub at: usize,
}

pub fn u32_in(s: &[u8], at: usize, left: usize) -> Result<u32, Cut>
    ensures { result ≡ word_in s.now at left }
{
    if left < 4 {
        Err(Cut { at })
    } else {
        Ok(u32_at(s, at))
    }
}

// ---- floats by their bits

// Twice the pattern, cut to 32 bits, drops the sign: above twice the infinity's it is a NaN's. All of those give the
// one NaN.
pub fn f32_of(bits: u32) -> f32
    ensures { result ≡ from_bits binary32 bits }
{
    if std::num::wrapping_add_u32(bits, bits) > 0xff00_0000 {
        0.0 / 0.0
    } else {
        f32::from_bits(bits)
    }
}

pub fn f64_of(bits: u64) -> f64
    ensures { result ≡ from_bits binary64 bits }
{
    if std::num::wrapping_add_u64(bits, bits) > 0xffe0_0000_0000_0000 {
        0.0 / 0.0
    } else {
        f64::from_bits(bits)
    }
}

// The pattern of x, for NaN the fixed one of the definition.
pub fn bits_of(x: f32) -> u32
    ensures { result ≡ to_bits binary32 x }
{
    if x != x { 0x7fc0_0000 } else { f32::to_bits(x) }
}

pub fn f32_at(s: &[u8], at: usize) -> f32
    ensures { result ≡ from_bits binary32 (big 4 s.now at) }
{
    f32_of(u32_at(s, at))
}

pub fn f64_at(s: &[u8], at: usize) -> f64
    ensures { result ≡ from_bits binary64 (big 8 s.now at) }
{
    f64_of(u64_at(s, at))
}

// ---- little-endian samples, read

fn two_low(s: &[u8], at: usize) -> u16
    requires { at + 2 ≤ length s.now }
    ensures { result ≡ little 2 s.now at }
{
    let a = wide(s[at]);
    let b = wide(s[at + 1]);
    (a + b * 256) as u16
}

fn four_low(s: &[u8], at: usize) -> u32
    requires { at + 4 ≤ length s.now }
    ensures { result ≡ little 4 s.now at }
{
    let a = wide(s[at]);
    let b = wide(s[at + 1]);
    let c = wide(s[at + 2]);
    let d = wide(s[at + 3]);
    (a + b * 256 + c * 0x1_0000 + d * 0x100_0000) as u32
}

// Four bytes from at on, one by one.
fn edge_low(s: &[u8], at: usize) -> u32
    ensures { result ≡ little 4 s.now at }
{
    if at < s.len() {
        (byte(s, at)
            + byte(s, at + 1) * 256
            + byte(s, at + 2) * 0x1_0000
            + byte(s, at + 3) * 0x100_0000) as u32
    } else {
        0
    }
}

pub fn u16_from(s: &[u8], at: usize) -> u16
    ensures { result ≡ little 2 s.now at }
{
    if at < less(s.len(), 1) {
        two_low(s, at)
    } else {
        (edge_low(&s[..], at) % 0x1_0000) as u16
    }
}

fn u32_from(s: &[u8], at: usize) -> u32
    ensures { result ≡ little 4 s.now at }
{
    if at < less(s.len(), 3) {
        four_low(s, at)
    } else {
        edge_low(&s[..], at)
    }
}

pub fn f32_from(s: &[u8], at: usize) -> f32
    ensures { result ≡ from_bits binary32 (little 4 s.now at) }
{
    f32_of(u32_from(s, at))
}

// ---- little-endian samples, put: the lowest byte first

fn put_two(s: &mut [u8], at: usize, n: u16)
    requires { at + 2 ≤ length s.old }
    ensures { s.new ≡ put 2 s.old at n }
{
    s[at] = (n % 256) as u8;
    s[at + 1] = (n / 256 % 256) as u8;
}

fn put_four(s: &mut [u8], at: usize, n: u32)
    requires { at + 4 ≤ length s.old }
    ensures { s.new ≡ put 4 s.old at n }
{
    s[at] = (n % 256) as u8;
    s[at + 1] = (n / 256 % 256) as u8;
    s[at + 2] = (n / 0x1_0000 % 256) as u8;
    s[at + 3] = (n / 0x100_0000 % 256) as u8;
}

// One byte, dropped past the end.
fn put_byte(s: &mut [u8], at: usize, b: u8)
    ensures { s.new ≡ slice_set s.old at b }
{
    if at < s.len() {
        s[at] = b;
    }
}

fn edge_put_two(s: &mut [u8], at: usize, n: u16)
    ensures { s.new ≡ put 2 s.old at n }
{
    if at < s.len() {
        put_byte(s, at, (n % 256) as u8);
        put_byte(s, at + 1, (n / 256 % 256) as u8);
    }
}

fn edge_put_four(s: &mut [u8], at: usize, n: u32)
    ensures { s.new ≡ put 4 s.old at n }
{
    if at < s.len() {
        put_byte(s, at, (n % 256) as u8);
        put_byte(s, at + 1, (n / 256 % 256) as u8);
        put_byte(s, at + 2, (n / 0x1_0000 % 256) as u8);
        put_byte(s, at + 3, (n / 0x100_0000 % 256) as u8);
    }
}

pub fn put_u16(s: &mut [u8], at: usize, n: u16)
    ensures { s.new ≡ put 2 s.old at n }
{
    if at < less(s.len(), 1) {
        put_two(s, at, n);
    } else {
        edge_put_two(s, at, n);
    }
}

fn put_u32(s: &mut [u8], at: usize, n: u32)
    ensures { s.new ≡ put 4 s.old at n }
{
    if at < less(s.len(), 3) {
        put_four(s, at, n);
    } else {
        edge_put_four(s, at, n);
    }
}

pub fn put_f32(s: &mut [u8], at: usize, x: f32)
    ensures { s.new ≡ put 4 s.old at (to_bits binary32 x) }
{
    put_u32(s, at, bits_of(x));
}
