// Stretches of zeros among bytes, passed over in wide steps. The bytes are cut into blocks, and a lent table keeps
// which of them were found to be zero, so that a stretch that is named again and again is not read again: where all is
// zero, a call reads less than two blocks, and those that are not in the table yet; where something is not, the block
// that has it twice more. An entry of the table never falls.
#![tactic(auto)]

ghost use Rattle.std.specs.Prelude.{ℕ, ◌≡◌, true, ◌+◌, ◌*◌, ◌≤◌, ◌<◌, length, get_or};
ghost use Rattle.num_zeros.specs.Zeros.{Zeros, block_of, Known, Passed, Counted, noted};

// How many bytes a block has: a table of 8,192 entries has one for each block.
fn block(n: usize) -> usize
    ensures { result ≡ block_of n }
{
    n / 65536 * 8 + 8
}

// Whether 32 bytes are zero. They are a part of their own, so that one look at its length serves all four numbers.
fn is_blank(s: &[u8], at: usize) -> bool
    requires { at + 32 ≤ length s.now }
    ensures { result ≡ true → Zeros s.now at (at + 32) }
{
    let end = at + 32;
    let part = &s[at..end];
    ((num_words::u64_at(part, 0) == 0) & (num_words::u64_at(part, 8) == 0))
        & ((num_words::u64_at(part, 16) == 0) & (num_words::u64_at(part, 24) == 0))
}

fn is_zero(s: &[u8], at: usize) -> bool
    ensures { result ≡ true → Zeros s.now at (at + 8) }
{
    num_words::u64_at(s, at) == 0
}

// As long as they are zero, by n.
fn steps<F: Fn(usize) -> bool>(s: &[u8], at: usize, end: usize, n: usize, is_zero: F) -> usize
    requires in_bounds { (at ≤ end) × (end ≤ length s.now) × (0 < n) }
    requires callable { (p : ℕ) → p + n ≤ length s.now → F.pre is_zero p }
    requires zeros { (p : ℕ) → p + n ≤ length s.now → F.post is_zero p true → Zeros s.now p (p + n) }
    ensures { Passed s.now at end result }
{
    // The place where it stops is the answer: a range and its counter are no plainer.
    let mut p = at;
    while n <= end - p && is_zero(p) {
        p += n;
    }
    p
}

// The same to the end itself: there the last eight bytes are read over some of those before.
fn stretch(s: &[u8], at: usize, end: usize) -> usize
    requires { (at ≤ end) × (end ≤ length s.now) }
    ensures { Passed s.now at end result }
{
    let wide = steps(s, at, end, 32, |p| is_blank(s, p));
    let p = steps(s, wide, end, 8, |p| is_zero(s, p));
    if 8 <= end - p || end < 8 || !is_zero(s, end - 8) {
        return p;
    }
    end
}

// ---- the table

// What is found of block j goes into its entry, if it has one.
fn note(known: &mut [u16], j: usize, m: usize)
    ensures { known.new ≡ noted known.old j m }
{
    let Ok(m) = u16::try_from(m) else {
        return;
    };
    if j < known.len() {
        known[j] = m;
    }
}

// How many blocks are known to be zero from block j on.
fn looked_up(known: &[u16], j: usize) -> usize
    ensures { (result ≡ get_or known.now j 0) × (result ≤ 65535) }
{
    known.get(j).map_or(0, |m| usize::from(*m))
}

// How many blocks from block j on are zero: as many as the table has, else one or none.
fn next_blocks(s: &[u8], known: &mut [u16], size: usize, j: usize) -> usize
    requires size_value { (size ≡ block_of (length s.now)) × ((j + 1) * size ≤ length s.now) }
    requires known { Known s.now known.old }
    ensures { Counted s.now j (j + result) known.new × (result ≤ 65535) }
{
    let m = looked_up(known, j);
    if 0 < m {
        return m;
    }
    let at = j * size;
    if stretch(s, at, at + size) < at + size {
        return 0;
    }
    note(known, j, 1);
    1
}

// The blocks from block j on that are zero, up to `last` or past it.
fn blocks(s: &[u8], known: &mut [u16], size: usize, j: usize, last: usize) -> usize
    requires size_value { (size ≡ block_of (length s.now)) × (last * size ≤ length s.now) }
    requires known { Known s.now known.old }
    ensures { Counted s.now j result known.new }
{
    let mut k = j;
    // not a range: a step is as many blocks as are known to be zero
    while k < last {
        let m = next_blocks(s, &mut *known, size, k);
        if m == 0 {
            return k;
        }
        k += m;
    }
    k
}

// The same, and where they end is kept for the next time.
fn kept_blocks(s: &[u8], known: &mut [u16], size: usize, j: usize, last: usize) -> usize
    requires size_value { (size ≡ block_of (length s.now)) × (last * size ≤ length s.now) }
    requires known { Known s.now known.old }
    ensures { Counted s.now j result known.new }
{
    let k = blocks(s, &mut *known, size, j, last);
    note(known, j, k - j);
    k
}

// From `at` on up to `end`: where zeros cease, or sooner. Inside the block of `at` and inside that of `end` bytes are
// read, between them blocks.
pub fn past(s: &[u8], known: &mut [u16], at: usize, end: usize) -> usize
    requires at_le_end { (at ≤ end) × (end ≤ length s.now) }
    requires known { Known s.now known.old }
    ensures passed { Passed s.now at end result }
    ensures known_2 { Known s.now known.new }
{
    if end - at < 8 {
        return at;
    }
    let size = block(s.len());
    let j = at / size + 1;
    let last = end / size;
    // No whole block lies between: what the table has of block j stays.
    if last <= j {
        return stretch(s, at, end);
    }
    let edge = j * size;
    let p = stretch(s, at, edge);
    if p < edge {
        return p;
    }
    let k = kept_blocks(s, &mut *known, size, j, last);
    if last < k {
        return end;
    }
    stretch(s, k * size, end)
}
