// Places among ascending marks: what an entry shows of the positions around it. A place is a hint: what it does not
// show is searched for.
#![tactic(auto)]

ghost use Rattle.std.specs.Prelude.{◌≡◌, true, ◌≤◌, ◌<◌, length, get_or};
ghost use Rattle.num_sorted.specs.Sorts.{has, Rises};
ghost use Rattle.fix_places.specs.Beside.{Reached, Under, Over, Free};

// The position of mark i.
pub fn mark(marks: &[u32], i: usize) -> usize
    requires { i < length marks.now }
    ensures { (result ≡ get_or marks.now i 0) × (result < 4294967296) }
{
    marks[i] as usize
}

// The first entry at or after `from` that is not below lo, or where that passed them all.
pub fn onward(marks: &[u32], from: usize, lo: usize) -> usize
    ensures { Reached marks.now from lo result }
{
    for at in from..marks.len() {
        if lo <= mark(marks, at) {
            return at;
        }
    }
    from.max(marks.len())
}

// Whether every mark before entry `at` is below lo: the one before it is the last of them.
pub fn under(marks: &[u32], at: usize, lo: usize) -> bool
    requires { (at ≤ length marks.now) × Rises 0 marks.now }
    ensures { result ≡ true → Under marks.now at lo }
{
    at == 0 || mark(marks, at - 1) < lo
}

// Whether every mark from entry `at` on is above hi.
pub fn over(marks: &[u32], at: usize, hi: usize) -> bool
    requires { (at ≤ length marks.now) × Rises 0 marks.now }
    ensures { result ≡ true → Over marks.now at hi }
{
    at == marks.len() || hi < mark(marks, at)
}

// Whether entry `at` shows that no position from lo up to hi is marked.
pub fn free(marks: &[u32], at: usize, lo: usize, hi: usize) -> bool
    requires { Rises 0 marks.now }
    ensures { result ≡ true → Free marks.now lo hi }
{
    at <= marks.len() && under(marks, at, lo) && over(marks, at, hi)
}

// Whether entry `at` is q.
fn stands(marks: &[u32], at: usize, q: usize) -> bool
    ensures { result ≡ true → has marks.now q ≡ true }
{
    at < marks.len() && mark(marks, at) == q
}

// Whether q is marked, seen from entry `at` where that shows it.
fn find_at(marks: &[u32], at: usize, q: u32) -> bool
    requires { Rises 0 marks.now }
    ensures { result ≡ has marks.now q }
{
    let p = q as usize;
    if stands(marks, at, p) {
        return true;
    }
    if free(marks, at, p, p) {
        return false;
    }
    num_sorted::find(marks, marks.len(), q)
}

// Whether q is marked. The place moves on to it; where it is asked for ascending positions, it goes over the marks
// once, and nothing is searched for.
pub fn seek(marks: &[u32], q: u32, place: &mut usize) -> bool
    requires { Rises 0 marks.now }
    ensures { result ≡ has marks.now q }
{
    *place = onward(marks, *place, q as usize);
    find_at(marks, *place, q)
}
