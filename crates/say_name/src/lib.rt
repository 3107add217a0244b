// The names of the opcodes as text, for all that speak of them.
#![tactic(auto)]

ghost use Rattle.std.specs.Prelude.{◌≡◌, ◌+◌, ◌≤◌, length};
ghost use Rattle.num_text.specs.Appended.{Appended};
ghost use Rattle.say_name.specs.Name.{name_text};

// 0 stands for every id of no opcode.
fn name(code: u8) -> &'static [u8]
    ensures { result.now ≡ name_text code }
{
    match code {
        1 => b"WarpRectilinear",
        2 => b"WarpFisheye",
        3 => b"FixVignetteRadial",
        4 => b"FixBadPixelsConstant",
        5 => b"FixBadPixelsList",
        6 => b"TrimBounds",
        7 => b"MapTable",
        8 => b"MapPolynomial",
        9 => b"GainMap",
        10 => b"DeltaPerRow",
        11 => b"DeltaPerColumn",
        12 => b"ScalePerRow",
        13 => b"ScalePerColumn",
        _ => b"Other",
    }
}

// The name of the opcode that a code names, behind the text that ends at `at`.
pub fn put_name(out: &mut [u8], at: usize, code: u8) -> usize
    requires { at + length (name_text code) ≤ length out.old }
    ensures { Appended out.old at (name_text code) result out.new }
{
    num_text::put(out, at, name(code))
}
