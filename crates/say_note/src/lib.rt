// The notes of a list: document 01, 'Notes program'. The lines are put into a lent buffer, which has room for the notes
// of every list.
#![tactic(auto)]

ghost use Rattle.std.specs.Prelude.{◌≡◌, cond, ◌∷◌, [], ◌+◌, ◌≤◌, ◌<◌, ltb, length, get_or, take};
ghost use Rattle.num_text.specs.Appended.{Appended};
ghost use Rattle.dng.specs.List.{items_of};
ghost use Rattle.dng.specs.Run.{class_of, name_of, names_of};
ghost use Rattle.say_note.specs.Note.{pixel, occurs, item, names, about, lines_of, malformed_after, note_of};
ghost use Rattle.say_note.specs.Parts.{part_of, piece_at, Noted};

use dng::{Class, Cursor, Opcode};

// Which opcodes a line is about: the pixel opcodes, those that the f32 run skips, or all.
#[derive(Clone, Copy)]
pub enum Part {
    Pixel,
    Skipped,
    Every,
}

// ---- the names of a part of a list, one byte each

fn is_pixel(op: Opcode) -> bool
    ensures { result ≡ pixel (class_of op) }
{
    !matches!(list_classes::class_of(op), Class::Unapplied)
}

fn is_in(part: Part, op: Opcode) -> bool
    ensures { result ≡ part_of part (class_of op) }
{
    match part {
        Part::Pixel => is_pixel(op),
        Part::Skipped => {
            let f = list_classes::facts_of(op);
            f.skipped
        }
        Part::Every => true,
    }
}

fn keep(codes: &mut [u8], at: usize, part: Part, op: Opcode) -> usize
    requires { at < length codes.old }
    ensures { Appended codes.old at (cond (part_of part (class_of op)) (name_of op ∷ []) []) result
        codes.new }
{
    if is_in(part, op) {
        num_text::put_byte(&mut *codes, at, list_classes::name_of(op))
    } else {
        at
    }
}

fn collect(list: &[u8], part: Part, codes: &mut [u8]) -> usize
    requires { 4096 ≤ length codes.old }
    ensures { Appended codes.old 0 (names_of (part_of part) (items_of list.now)) result
        codes.new }
{
    let n = list_read::count(list);
    let mut j: usize = 0;
    let mut c = Cursor { at: 4 };
    for k in 0..n {
        let Ok(s) = list_read::step(list, c) else {
            return j;
        };
        j = keep(&mut *codes, j, part, s.op);
        c = s.next;
    }
    j
}

// ---- names

fn count(codes: &[u8], code: u8) -> usize
    ensures { result ≡ occurs code codes.now }
{
    codes.iter().filter(|c| **c == code).count()
}

// A name, and how often it occurs if that is more than once.
fn put_item(out: &mut [u8], at: usize, codes: &[u8], code: u8) -> usize
    requires { at + length (item codes.now code) ≤ length out.old }
    ensures { Appended out.old at (item codes.now code) result out.new }
{
    let end = say_name::put_name(&mut *out, at, code);
    let times = count(codes, code);
    if 1 < times {
        let x = num_text::put(&mut *out, end, b" x");
        num_text::put_number(&mut *out, x, times as u64)
    } else {
        end
    }
}

// A name where it appears first, and nothing where it appears again.
fn put_piece(out: &mut [u8], at: usize, codes: &[u8], k: usize, again: bool) -> usize
    requires { (k < length codes.now) × (again ≡ ltb 0 (occurs (get_or codes.now k 0) (take k codes.now)))
        × (at + length (piece_at codes.now k) ≤ length out.old) }
    ensures { Appended out.old at (piece_at codes.now k) result out.new }
{
    if again {
        return at;
    }
    let code = codes[k];
    if k == 0 {
        put_item(&mut *out, at, codes, code)
    } else {
        let end = num_text::put(&mut *out, at, b", ");
        put_item(&mut *out, end, codes, code)
    }
}

// A name that has appeared has its flag set, so that it is passed over in one step where it appears again.
fn put_names(out: &mut [u8], at: usize, codes: &[u8]) -> usize
    requires { at + length (names codes.now) ≤ length out.old }
    ensures { Appended out.old at (names codes.now) result out.new }
{
    let mut seen = [false; 256];
    let mut end = at;
    for (k, code) in codes.iter().enumerate() {
        let code = *code as usize;
        end = put_piece(&mut *out, end, codes, k, seen[code]);
        seen[code] = true;
    }
    end
}

// ---- lines

fn put_line(out: &mut [u8], at: usize, head: &[u8], codes: &[u8], end: &[u8]) -> usize
    requires { at + length (about head.now codes.now end.now) ≤ length out.old }
    ensures { Appended out.old at (about head.now codes.now end.now)
        result out.new }
{
    if codes.len() == 0 {
        return at;
    }
    let names_at = num_text::put(&mut *out, at, head);
    let end_at = put_names(&mut *out, names_at, codes);
    num_text::put(&mut *out, end_at, end)
}

// The line about a part of a list; no list has more than 4,096 opcodes.
fn put_about(list: &[u8], part: Part, out: &mut [u8], at: usize, head: &[u8], end: &[u8]) -> usize
    requires { at + length (about head.now (names_of (part_of part) (items_of list.now)) end.now) ≤ length
        out.old }
    ensures { Appended out.old at
        (about head.now (names_of (part_of part) (items_of list.now)) end.now) result
        out.new }
{
    let mut codes = [0u8; 4096];
    let m = collect(list, part, &mut codes);
    put_line(&mut *out, at, head, &codes[..m], end)
}

// The lines of a list that was read whole. There are pixel opcodes where there is a first line.
fn put_lines(list: &[u8], out: &mut [u8]) -> usize
    requires { length (lines_of (items_of list.now)) ≤ length out.old }
    ensures { Appended out.old 0 (lines_of (items_of list.now)) result out.new }
{
    let end = put_about(
        list,
        Part::Pixel,
        &mut *out,
        0,
        b"OpcodeList1: applied ",
        b"\n",
    );
    if end == 0 {
        put_about(
            list,
            Part::Every,
            &mut *out,
            0,
            b"OpcodeList1: not applied ",
            b" (no pixel opcodes)\n",
        )
    } else {
        put_about(
            list,
            Part::Skipped,
            &mut *out,
            end,
            b"OpcodeList1: not applied ",
            b"\n",
        )
    }
}

fn put_malformed(out: &mut [u8], after: usize) -> usize
    requires { length (malformed_after after) ≤ length out.old }
    ensures { Appended out.old 0 (malformed_after after) result out.new }
{
    let number_at = num_text::put(&mut *out, 0, b"malformed after ");
    let end = num_text::put_number(&mut *out, number_at, after as u64);
    num_text::put(&mut *out, end, b"\n")
}

// ---- the note

fn put_note(list: &[u8], out: &mut [u8]) -> usize
    requires { 1024 ≤ length out.old }
    ensures { Appended out.old 0 (note_of list.now) result out.new }
{
    if 65535 < list.len() {
        return num_text::put(&mut *out, 0, b"too long\n");
    }
    match list_read::read(list) {
        Ok(_) => put_lines(list, &mut *out),
        Err(m) => put_malformed(&mut *out, m.after),
    }
}

// Puts the note of a list at the start of the buffer and returns where it ends. No note has more than 1,024 bytes: of
// the fourteen names each stands at most once in a line.
pub fn note(list: &[u8], out: &mut [u8; 1024]) -> usize
    ensures { Noted list.now out.old result out.new }
{
    put_note(list, out)
}
