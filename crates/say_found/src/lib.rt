// Where the lists of a DNG file lie, as text: a line for each of the three.
#![tactic(auto)]

ghost use Rattle.std.specs.Prelude.{◌+◌, ◌≤◌, length};
ghost use Rattle.say_found.specs.Lines.{name_text, count, place_text, found_text, line_of, lines_of, Within, Said};

use list_find::{FindError, Place, Which};

fn put_name(out: &mut [u8], at: usize, which: Which) -> usize
    requires { at + 13 ≤ length out.old }
    ensures { Within 13 out.old at (name_text which) result out.new }
{
    match which {
        Which::List1 => num_text::put(out, at, b"OpcodeList1: "),
        Which::List2 => num_text::put(out, at, b"OpcodeList2: "),
        Which::List3 => num_text::put(out, at, b"OpcodeList3: "),
    }
}

// A label and a number.
fn put_count(out: &mut [u8], at: usize, label: &[u8], n: usize) -> usize
    requires { at + length label.now + 20 ≤ length out.old }
    ensures { Within (length label.now + 20) out.old at (count label.now n)
        result out.new }
{
    let a = num_text::put(&mut *out, at, label);
    num_text::put_number(&mut *out, a, n as u64)
}

fn put_place(out: &mut [u8], at: usize, start: usize, len: usize) -> usize
    requires { at + 60 ≤ length out.old }
    ensures { Within 60 out.old at (place_text start len) result out.new }
{
    let a = put_count(&mut *out, at, b"0: ", len);
    let b = put_count(&mut *out, a, b" bytes at ", start);
    num_text::put_byte(&mut *out, b, 10)
}

fn put_found(out: &mut [u8], at: usize, found: Result<Place, FindError>) -> usize
    requires { at + 60 ≤ length out.old }
    ensures { Within 60 out.old at (found_text found) result out.new }
{
    match found {
        Ok(place) => put_place(out, at, place.start, place.len),
        Err(FindError::NotTiff) => num_text::put(out, at, b"30: not a TIFF file\n"),
        Err(FindError::Outside) => num_text::put(
            out,
            at,
            b"31: an offset or a size lies outside the file\n",
        ),
        Err(FindError::TooMany) => num_text::put(out, at, b"32: more than 64 directories\n"),
        Err(FindError::Missing) => num_text::put(out, at, b"33: not in the file\n"),
    }
}

fn put_line(out: &mut [u8], at: usize, which: Which, found: Result<Place, FindError>) -> usize
    requires { at + 73 ≤ length out.old }
    ensures { Within 73 out.old at (line_of which found) result out.new }
{
    let a = put_name(&mut *out, at, which);
    put_found(&mut *out, a, found)
}

fn put_lines(file: &[u8], out: &mut [u8]) -> usize
    requires { 219 ≤ length out.old }
    ensures { Within 219 out.old 0 (lines_of file.now) result out.new }
{
    let a = put_line(
        &mut *out,
        0,
        Which::List1,
        list_find::find(file, Which::List1),
    );
    let b = put_line(
        &mut *out,
        a,
        Which::List2,
        list_find::find(file, Which::List2),
    );
    put_line(
        &mut *out,
        b,
        Which::List3,
        list_find::find(file, Which::List3),
    )
}

// The line of one list at the start of a buffer, and where it ends.
pub fn line(which: Which, found: Result<Place, FindError>, out: &mut [u8; 256]) -> usize
    ensures { Said (line_of which found) out.old result out.new }
{
    put_line(out, 0, which, found)
}

// The lines of all three lists of a file.
pub fn lines(file: &[u8], out: &mut [u8; 256]) -> usize
    ensures { Said (lines_of file.now) out.old result out.new }
{
    put_lines(file, out)
}
