// From f64 to f32, to the nearest, a tie to the even one (`narrow`, specs/Narrow.antt).
#![tactic(auto)]

ghost use Rattle.std.specs.Prelude.{◌+◌, ◌*◌, ◌/◌, ◌%◌, ◌≤◌, ◌<◌, ◌≡◌, Bool, cond};
ghost use Rattle.std.specs.Float.{binary32, binary64};
ghost use Rattle.std.specs.Float.Ieee.{of_bits};
ghost use Rattle.num_narrow.specs.Narrow.{narrow};

// The bits of the f32 nearest to an f64 below the smallest normal f32, both without the sign.
// The significand with its leading one is shifted down to units of 2^-149; half a unit less one,
// and the unit's own low bit, round it to the nearest, a tie to the even one.
fn small(a: u64) -> u32
    requires { a < 0x3810_0000_0000_0000 }
    ensures { (result ≤ 0x80_0000)
        × ((s : Bool) → of_bits binary32 (cond s 0x8000_0000 0 + result)
        ≡ narrow (of_bits binary64 (cond s 0x8000_0000_0000_0000 0 + a))) }
{
    if a <= 0x3690_0000_0000_0000 {
        return 0;
    }
    let q = 0x10_0000_0000_0000 + a % 0x10_0000_0000_0000;
    let drop = 926 - a / 0x10_0000_0000_0000;
    ((q + ((1 << (drop - 1)) - 1) + (q >> drop) % 2) >> drop) as u32
}

// The f32 of the bits `r`, with the sign of the f64 of the bits `b`.
fn signed(b: u64, r: u32) -> f32
    requires { r ≤ 0x7f80_0000 }
    ensures { result ≡ of_bits binary32 (b / 0x8000_0000_0000_0000 * 0x8000_0000 + r) }
{
    f32::from_bits((b / 0x8000_0000_0000_0000 * 0x8000_0000) as u32 + r)
}

// The f32 of the f64 of the bits `b`, where that is a normal one. Rounds at the 29 digits that an f32 lacks, where a
// carry goes on into the exponent; what that gives is an f32 exactly.
fn normal(b: u64) -> f32
    requires { (0x3810_0000_0000_0000 ≤ b % 0x8000_0000_0000_0000)
        × (b % 0x8000_0000_0000_0000 < 0x47ef_ffff_f000_0000) }
    ensures { result ≡ narrow (of_bits binary64 b) }
{
    let t = (b + 0x0fff_ffff + b / 0x2000_0000 % 2) / 0x2000_0000 * 0x2000_0000;
    f64::from_bits(t) as f32
}

// Every x, by its bits without the sign. From 0x47ef_ffff_f000_0000, which is halfway between the largest f32 and
// 2^128, the result is an infinity.
fn by_cases(x: f64) -> f32
    ensures { result ≡ narrow x }
{
    if x != x {
        return 0.0 / 0.0;
    }
    let b = f64::to_bits(x);
    let a = b % 0x8000_0000_0000_0000;
    if 0x3810_0000_0000_0000 <= a && a < 0x47ef_ffff_f000_0000 {
        return normal(b);
    }
    if a < 0x3810_0000_0000_0000 {
        return signed(b, small(a));
    }
    signed(b, 0x7f80_0000)
}

// `x as f32`. What is above 0, which no NaN is, and gives a normal f32 takes three comparisons.
pub fn to_f32(x: f64) -> f32
    ensures { result ≡ narrow x }
{
    if 0.0 < x {
        let b = f64::to_bits(x);
        if 0x3810_0000_0000_0000 <= b && b < 0x47ef_ffff_f000_0000 {
            return normal(b);
        }
    }
    by_cases(x)
}
