// From a float to a whole number: rounded half away from zero and held, or rounded down with what is left.
#![tactic(auto)]

ghost use Rattle.std.specs.Prelude.{◌≡◌, ◌<◌, pos, T, false};
ghost use Rattle.std.specs.Float.{fin, binary32};
ghost use Rattle.std.specs.Float.Ieee.{lt, of_int};
ghost use Rattle.num_round.specs.Whole.{round_held, FloorIs};

// An x below 2^24, which no NaN is. A negative x gives 0, as 0.0 does.
// The sum is 2^26 or more and below 2^27, so its pattern ends in the whole part of h + 0.5, 26 digits, and 26 digits of
// the fraction. The digits past those are rounded away, and that rounds nothing up to a whole number: an h with such
// digits is below a quarter.
fn round_small(x: f32, last: u32) -> u32
    requires { T (lt x (fin false 1 (pos 24))) }
    ensures { result ≡ round_held last x }
{
    let h = if x > 0.0 { x } else { 0.0 };
    let bits = f64::to_bits(h as f64 + 67108864.5);
    let n = (bits / 0x400_0000 % 0x400_0000) as u32;
    if n < last { n } else { last }
}

// The other x: a NaN, or whole already, as every f32 from 2^24 on is.
fn round_large(x: f32, last: u32) -> u32
    requires { lt x (fin false 1 (pos 24)) ≡ false }
    ensures { result ≡ round_held last x }
{
    if x < 4294967296.0 {
        let w = (x as f64) as u32;
        if w < last { w } else { last }
    } else if x != x {
        0
    } else {
        last
    }
}

// x rounded to whole, half away from zero, and held to 0..last; a NaN gives 0.
pub fn round_held(x: f32, last: u32) -> u32
    ensures { result ≡ round_held last x }
{
    if x < 16777216.0 {
        round_small(x, last)
    } else {
        round_large(x, last)
    }
}

// The same where last is below 2^24 and `top` is that number as a float: held before the sum, in floats, so that there
// is no branch.
pub fn round_below(x: f32, last: u32, top: f32) -> u32
    requires { (last < 16777216) × (top ≡ of_int binary32 (pos last)) }
    ensures { result ≡ round_held last x }
{
    let raised = if x > 0.0 { x } else { 0.0 };
    let kept = if raised < top { raised } else { top };
    let bits = f64::to_bits(kept as f64 + 67108864.5);
    (bits / 0x400_0000 % 0x400_0000) as u32
}

// The same for a u16 sample.
pub fn round_u16(x: f32) -> u16
    ensures { result ≡ round_held 65535 x }
{
    round_held(x, 65535) as u16
}

// A whole part and what is left.
#[derive(Clone, Copy)]
pub struct Floored {
    pub index: u32,
    pub rest: f64,
}

// f rounded down and held to 32 bits, and what is left of f. With 2^52 added and taken off again f is rounded to the
// nearest whole number, which is at most one too many. The last arm has a NaN, the zeros and what is negative.
pub fn floor(f: f64) -> Floored
    ensures { FloorIs f result.index result.rest }
{
    if f > 0.0 {
        if f < 4294967296.0 {
            let near = (f + 4503599627370496.0) - 4503599627370496.0;
            let over = if f < near { 1.0 } else { 0.0 };
            let w = near - over;
            let index = w as u32;
            Floored { index, rest: f - w }
        } else {
            Floored {
                index: 4294967295,
                rest: f - 4294967295.0,
            }
        }
    } else {
        Floored {
            index: 0,
            rest: f - 0.0,
        }
    }
}
