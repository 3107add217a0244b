// Whole numbers as floats, an f32 as an f64, and a value held between two others.
#![tactic(auto)]

ghost use Rattle.std.specs.Prelude.{◌≡◌};
ghost use Rattle.std.specs.Float.{binary32, binary64};
ghost use Rattle.num_convert.specs.Convert.{held_to, whole_in};

// `n as f32`, exact.
pub fn f32_of_u16(n: u16) -> f32
    ensures { result ≡ whole_in binary32 n }
{
    n as f32
}

// `n as f64`, exact.
pub fn f64_of_u32(n: u32) -> f64
    ensures { result ≡ whole_in binary64 n }
{
    n as f64
}

// `n as f32`, to the nearest: from 2^24 on an f32 does not hold every whole number.
pub fn f32_of_u32(n: u32) -> f32
    ensures { result ≡ whole_in binary32 n }
{
    num_narrow::to_f32(n as f64)
}

// `x as f64`: the same value. A NaN is made anew, since a cast of one is undefined here.
pub fn widen(x: f32) -> f64
    ensures { result ≡ x }
{
    if x != x {
        return 0.0 / 0.0;
    }
    x as f64
}

// `x` held to `a..b`.
pub fn held(x: f64, a: f64, b: f64) -> f64
    ensures { result ≡ held_to a b x }
{
    if x < a {
        return a;
    }
    if b < x {
        return b;
    }
    x
}
