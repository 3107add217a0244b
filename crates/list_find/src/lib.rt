// The opcode lists inside a DNG file: a walk over its TIFF directories. `most` says that the first byte of a number
// weighs most.
#![tactic(auto)]

ghost use Rattle.std.specs.Prelude.{◌≡◌, true, ◌+◌, ◌*◌, ◌≤◌, ◌<◌, leb, length};
ghost use Rattle.num_zeros.specs.Zeros.{Known};
ghost use Rattle.list_find.specs.Skips.{Skipped};
ghost use Rattle.list_find.specs.Walk.{
  tag_of,
  file_with,
  u16,
  u32,
  next_at,
  whole,
  value_at,
  is_list,
  is_subs,
  list_at,
  own_from,
  visit,
  sub_of,
  subs_from,
  subs_at,
  any_subs,
  all_subs,
  directory,
  chain,
  headed,
  found_in,
  part_of,
};

use std::ops::ControlFlow;
use std::ops::ControlFlow::{Break, Continue};

// Which list is asked for.
#[derive(Clone, Copy)]
pub enum Which {
    List1,
    List2,
    List3,
}

impl Which {
    pub const TAG1: usize = 51008;

    pub const TAG2: usize = 51009;

    pub const TAG3: usize = 51022;
}

// Where it stands in the file.
#[derive(Clone, Copy)]
pub struct Place {
    pub start: usize,
    pub len: usize,
}

// Why none was found.
#[derive(Clone, Copy)]
pub enum FindError {
    NotTiff,
    Outside,
    TooMany,
    Missing,
}

// An answer, which ends the walk, or how many directories were gone to.
type Walked = ControlFlow<Result<Place, FindError>, usize>;

pub const MAX_DIRECTORIES: usize = 64;

// The tag of SubIFDs, and the types that count: UNDEFINED and BYTE of a list, LONG and IFD of SubIFDs.
pub const SUB_IFDS: usize = 330;

pub const UNDEFINED: usize = 7;

pub const BYTE: usize = 1;

pub const LONG: usize = 4;

pub const IFD: usize = 13;

// ---- numbers

fn half(file: &[u8], most: bool, at: usize) -> usize
    ensures { (result ≡ u16 (file_with most file.now) at) × (result ≤ 65535) }
{
    if most {
        num_words::u16_at(file, at) as usize
    } else {
        num_words::u16_from(file, at) as usize
    }
}

fn word(file: &[u8], most: bool, at: usize) -> usize
    requires { at + 4 ≤ length file.now }
    ensures { (result ≡ u32 (file_with most file.now) at) × (result ≤ 4294967295) }
{
    if most {
        num_words::u32_at(file, at) as usize
    } else {
        num_words::u16_from(file, at) as usize + num_words::u16_from(file, at + 2) as usize * 65536
    }
}

// ---- an entry, which lies inside the file

fn value_at(file: &[u8], most: bool, e: usize, n: usize) -> usize
    requires { e + 12 ≤ length file.now }
    ensures { result ≡ value_at (file_with most file.now) e n }
{
    if n <= 4 {
        e + 8
    } else {
        word(file, most, e + 8)
    }
}

// Whether n bytes from at on lie inside the file; no sum, so that none wraps.
fn is_inside(file: &[u8], at: usize, n: usize) -> bool
    ensures { result ≡ leb (at + n) (length file.now) }
{
    n <= file.len() && at <= file.len() - n
}

fn is_list(file: &[u8], most: bool, tag: usize, e: usize) -> bool
    requires { e + 12 ≤ length file.now }
    ensures { result ≡ is_list (file_with most file.now) tag e }
{
    let kind = half(file, most, e + 2);
    (half(file, most, e) == tag) & ((kind == UNDEFINED) | (kind == BYTE))
}

fn is_subs(file: &[u8], most: bool, e: usize) -> bool
    requires { e + 12 ≤ length file.now }
    ensures { result ≡ is_subs (file_with most file.now) e }
{
    let kind = half(file, most, e + 2);
    (half(file, most, e) == SUB_IFDS) & ((kind == LONG) | (kind == IFD))
}

// The list that an entry holds, as a part of the file.
fn list_at(file: &[u8], most: bool, e: usize) -> Result<Place, FindError>
    requires { e + 12 ≤ length file.now }
    ensures { result ≡ list_at (file_with most file.now) e }
{
    let n = word(file, most, e + 4);
    let at = value_at(file, most, e, n);
    if is_inside(file, at, n) {
        Ok(Place { start: at, len: n })
    } else {
        Err(FindError::Outside)
    }
}

// ---- a directory

// The first of n entries from e on that is the list.
fn own(file: &[u8], most: bool, tag: usize, n: usize, e: usize, k: usize) -> Walked
    requires { e + 12 * n ≤ length file.now }
    ensures { result ≡ own_from (file_with most file.now) tag n e k }
{
    for i in 0..n {
        let at = e + 12 * i;
        if is_list(file, most, tag, at) {
            return Break(list_at(file, most, at));
        }
    }
    Continue(k)
}

fn is_whole(file: &[u8], most: bool, at: usize) -> bool
    ensures { result ≡ whole (file_with most file.now) at }
{
    is_inside(file, at, half(file, most, at) * 12 + 6)
}

fn visit(file: &[u8], most: bool, tag: usize, at: usize, k: usize) -> Walked
    ensures { result ≡ visit (file_with most file.now) tag at k }
{
    if MAX_DIRECTORIES <= k {
        return Break(Err(FindError::TooMany));
    }
    if !is_whole(file, most, at) {
        return Break(Err(FindError::Outside));
    }
    own(file, most, tag, half(file, most, at), at + 2, k + 1)
}

// ---- SubIFDs. Offsets 0 are passed over and count to no limit, so that a file can name stretches of zeros again and
// again: `known` keeps which were found to be zero.

// One offset of a SubIFD.
fn sub(file: &[u8], most: bool, tag: usize, at: usize, k: usize) -> Walked
    ensures { result ≡ sub_of (file_with most file.now) tag at k }
{
    if at == 0 {
        Continue(k)
    } else {
        visit(file, most, tag, at, k)
    }
}

// The offset behind offset i, or a later one where those between are 0.
fn next_sub(file: &[u8], known: &mut [u16], n: usize, o: usize, i: usize) -> usize
    requires i_lt_n { (i < n) × (o + 4 * n ≤ length file.now) }
    requires known { Known file.now known.old }
    ensures skipped { Skipped file.now n o i result }
    ensures known_2 { Known file.now known.new }
{
    (num_zeros::past(file, known, o + 4 * (i + 1), o + 4 * n) - o) / 4
}

// The SubIFDs that n offsets from o on name, in order.
fn subs(
    file: &[u8],
    known: &mut [u16],
    most: bool,
    tag: usize,
    n: usize,
    o: usize,
    k: usize,
) -> Walked
    requires n_in_bounds { o + 4 * n ≤ length file.now }
    requires known { Known file.now known.old }
    ensures value { result ≡ subs_from (file_with most file.now) tag n o k }
    ensures known_2 { Known file.now known.new }
{
    let mut i: usize = 0;
    let mut gone = k;
    // not a range: a step passes the offsets that are 0
    while i < n {
        let at = word(file, most, o + 4 * i);
        gone = sub(file, most, tag, at, gone)?;
        i = next_sub(file, &mut *known, n, o, i);
    }
    Continue(gone)
}

// The SubIFDs of an entry.
fn subs_at(file: &[u8], known: &mut [u16], most: bool, tag: usize, e: usize, k: usize) -> Walked
    requires e_in_bounds { e + 12 ≤ length file.now }
    requires known { Known file.now known.old }
    ensures value { result ≡ subs_at (file_with most file.now) tag e k }
    ensures known_2 { Known file.now known.new }
{
    let n = word(file, most, e + 4);
    let o = value_at(file, most, e, 4 * n);
    if is_inside(file, o, 4 * n) {
        subs(file, known, most, tag, n, o, k)
    } else {
        Break(Err(FindError::Outside))
    }
}

// The same where the entry is of SubIFDs.
fn any_subs(file: &[u8], known: &mut [u16], most: bool, tag: usize, e: usize, k: usize) -> Walked
    requires e_in_bounds { e + 12 ≤ length file.now }
    requires known { Known file.now known.old }
    ensures value { result ≡ any_subs (file_with most file.now) tag e k }
    ensures known_2 { Known file.now known.new }
{
    if is_subs(file, most, e) {
        subs_at(file, known, most, tag, e, k)
    } else {
        Continue(k)
    }
}

// The SubIFDs of n entries from e on.
fn all_subs(
    file: &[u8],
    known: &mut [u16],
    most: bool,
    tag: usize,
    n: usize,
    e: usize,
    k: usize,
) -> Walked
    requires n_in_bounds { e + 12 * n ≤ length file.now }
    requires known { Known file.now known.old }
    ensures value { result ≡ all_subs (file_with most file.now) tag n e k }
    ensures known_2 { Known file.now known.new }
{
    let mut gone = k;
    for i in 0..n {
        gone = any_subs(file, &mut *known, most, tag, e + 12 * i, gone)?;
    }
    Continue(gone)
}

// ---- the chain

// A directory's own entries, then its SubIFDs.
fn directory(file: &[u8], known: &mut [u16], most: bool, tag: usize, at: usize, k: usize) -> Walked
    requires { Known file.now known.old }
    ensures value { result ≡ directory (file_with most file.now) tag at k }
    ensures known { Known file.now known.new }
{
    let gone = visit(file, most, tag, at, k)?;
    all_subs(file, known, most, tag, half(file, most, at), at + 2, gone)
}

fn next(file: &[u8], most: bool, at: usize) -> usize
    requires { whole (file_with most file.now) at ≡ true }
    ensures { result ≡ u32 (file_with most file.now) (next_at (file_with most file.now) at) }
{
    word(file, most, at + 2 + 12 * half(file, most, at))
}

// The chain of directories from `first` on.
fn walk(
    file: &[u8],
    known: &mut [u16],
    most: bool,
    tag: usize,
    first: usize,
) -> Result<Place, FindError>
    requires { Known file.now known.old }
    ensures { result ≡ chain (file_with most file.now) tag 65 first 0 }
{
    let mut at = first;
    let mut gone = 0;
    // not a range: the file says where the next directory is
    while at != 0 {
        match directory(file, &mut *known, most, tag, at, gone) {
            Break(found) => return found,
            Continue(directories) => gone = directories,
        }
        at = next(file, most, at);
    }
    Err(FindError::Missing)
}

// ---- the file

// II or MM, 42, and room for the first offset.
fn is_headed(file: &[u8]) -> bool
    ensures { result ≡ headed file.now }
{
    if file.len() < 8 {
        return false;
    }
    let a = file[0];
    let b = file[1];
    (((a == 73) & (b == 73)) & (num_words::u16_from(file, 2) == 42))
        | (((a == 77) & (b == 77)) & (num_words::u16_at(file, 2) == 42))
}

fn tag_of(which: Which) -> usize
    ensures { result ≡ tag_of which }
{
    match which {
        Which::List1 => Which::TAG1,
        Which::List2 => Which::TAG2,
        Which::List3 => Which::TAG3,
    }
}

// The first list of the kind asked for, in the order of the walk, for any bytes.
pub fn find(file: &[u8], which: Which) -> Result<Place, FindError>
    ensures { result ≡ found_in file.now which }
{
    if !is_headed(file) {
        return Err(FindError::NotTiff);
    }
    let most = file[0] == 77;
    let mut known = [0u16; 8192];
    walk(file, &mut known, most, tag_of(which), word(file, most, 4))
}

// The list that was found: the caller's own part of the file, cut where the file ends.
pub fn part(file: &[u8], start: usize, len: usize) -> &[u8]
    ensures { result.now ≡ part_of file.now start len }
{
    let rest = &file[start.min(file.len())..];
    &rest[..len.min(rest.len())]
}
