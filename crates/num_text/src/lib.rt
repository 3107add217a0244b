// Text in a lent buffer: each function puts bytes behind the text that ends at `at`, and returns where the text ends
// then. The callers see to room.
#![tactic(auto)]

ghost use Rattle.std.specs.Prelude.{◌≡◌, ◌∷◌, [], ◌+◌, ◌≤◌, ◌<◌, length};
ghost use Rattle.num_text.specs.Text.{decimal};
ghost use Rattle.num_text.specs.Appended.{Appended};

pub fn put_byte(out: &mut [u8], at: usize, byte: u8) -> usize
    requires { at < length out.old }
    ensures { Appended out.old at (byte ∷ []) result out.new }
{
    out[at] = byte;
    at + 1
}

pub fn put(out: &mut [u8], at: usize, bytes: &[u8]) -> usize
    requires { at + length bytes.now ≤ length out.old }
    ensures { Appended out.old at bytes.now result out.new }
{
    let end = at + bytes.len();
    out[at..end].copy_from_slice(bytes);
    end
}

fn digit(d: u64) -> u8
    requires { d < 10 }
    ensures { result ≡ 48 + d }
{
    48 + d as u8
}

// The number in decimal; the digits in front of the last are those of a tenth of it.
pub fn put_number(out: &mut [u8], at: usize, n: u64) -> usize
    requires { at + length (decimal n) ≤ length out.old }
    ensures { Appended out.old at (decimal n) result out.new }
{
    if n < 10 {
        put_byte(&mut *out, at, digit(n))
    } else {
        let end = put_number(&mut *out, at, n / 10);
        put_byte(&mut *out, end, digit(n % 10))
    }
}
