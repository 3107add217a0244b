// The bytes that name the skipped opcodes of a list, in a lent buffer: of all its entries, or of those that a preview
// leaves. They go by the entries that are read whole, also where the list is malformed after them.
#![tactic(auto)]

ghost use Rattle.std.specs.Prelude.{◌≡◌, not, ◌&&◌, cond, set};
ghost use Rattle.std.proofs.lemmas.List.Edits.{sets};
ghost use Rattle.dng.specs.List.{preview_of};
ghost use Rattle.dng.specs.Run.{kept_in, class_of, name_of, skipped, skipped16, names_of};
ghost use Rattle.list_names.specs.Names.{skipped_in};

use dng::{Cursor, Entry, Opcode};

// `whole` asks for the whole-number form.
fn skips(op: Opcode, whole: bool) -> bool
    ensures { result ≡ skipped_in whole (class_of op) }
{
    let f = list_classes::facts_of(op);
    if whole { f.skipped16 } else { f.skipped }
}

// Whether an entry has a name: its opcode is skipped, and it is not dropped.
fn is_named(e: Entry, op: Opcode, whole: bool, preview: bool) -> bool
    ensures { result ≡ (not (preview && preview_of e) && skipped_in whole (class_of op)) }
{
    !list_entries::dropped(e, preview) & skips(op, whole)
}

// The name of an opcode at j, if it has one.
fn put(names: &mut [u8], j: usize, op: Opcode, named: bool)
    ensures { names.new ≡ cond named (set names.old j (name_of op))
        names.old }
{
    if named {
        if j < names.len() {
            names[j] = list_classes::name_of(op);
        }
    }
}

// All names from the buffer's start on. What has no room is dropped.
fn put_all(list: &[u8], names: &mut [u8], whole: bool, preview: bool)
    ensures { names.new ≡ sets names.old 0
        (names_of (skipped_in whole) (kept_in preview list.now)) }
{
    let n = list_read::count(list);
    let mut j: usize = 0;
    let mut c = Cursor { at: 4 };
    for k in 0..n {
        let Ok(s) = list_read::step(list, c) else {
            return;
        };
        let named = is_named(s.entry, s.op, whole, preview);
        put(&mut *names, j, s.op, named);
        j += usize::from(named);
        c = s.next;
    }
}

// The names of the f32 run, for a caller who has asked for room.
pub fn write_names(list: &[u8], names: &mut [u8], preview: bool)
    ensures { names.new ≡ sets names.old 0
        (names_of skipped (kept_in preview list.now)) }
{
    put_all(list, &mut *names, false, preview)
}

// The names of the whole-number run.
pub fn write_names16(list: &[u8], names: &mut [u8], preview: bool)
    ensures { names.new ≡ sets names.old 0
        (names_of skipped16 (kept_in preview list.now)) }
{
    put_all(list, &mut *names, true, preview)
}
