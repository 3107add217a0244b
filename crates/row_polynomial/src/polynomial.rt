// What a row reads of a polynomial.

ghost use Rattle.std.specs.Prelude.{◌≡◌, ℕ, ◌≤◌, ◌<◌, length, get_or};
ghost use Rattle.dng.specs.Value.{nought};

// A polynomial as a row reads it once: nine coefficients, the missing high ones 0.0, and the scale in both widths.
#[derive(Clone, Copy)]
pub struct Polynomial {
    pub terms: [f64; 9],
    pub degree: u32,
    pub scale: f32,
    pub scale64: f64,
    ghost nine: { length terms ≡ 9 },
    ghost few: { degree ≤ 8 },
    ghost above: { (k : ℕ) → degree < k → get_or terms k nought ≡ nought },
    ghost widened: { scale64 ≡ scale },
}
