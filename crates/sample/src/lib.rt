// The two kinds of sample, f32 and u16, as the repairs and the runs know them: code over samples is written once.
#![tactic(auto)]

ghost use Rattle.std.specs.Prelude.{◌≡◌, ℕ, ◌<◌, Bool, false, List, eqb, Float, length, get_or, MatchOption};
ghost use Rattle.std.specs.Float.{nan, binary32};
ghost use Rattle.std.specs.Float.Ieee.{div, eq};
ghost use Rattle.num_round.specs.Whole.{round_held};
ghost use Rattle.num_convert.specs.Convert.{whole_in};
ghost use Rattle.dng.specs.declared.Opcode.{Opcode};
ghost use Rattle.dng.specs.Select.{Rule};
ghost use Rattle.dng.specs.Value.{Frame, rule_of, rule16_of};
ghost use Rattle.dng.specs.Run.{f32_kind, u16_kind};
ghost use Rattle.sample.specs.Kinds.{IsKind};

// The fields of the paper's `Kind` (dng, specs/Run), and the code for each: specs/Kinds has what they come to.
pub trait Sample: Copy + PartialEq {
    // What a sample is compared with.
    type Constant: Copy;

    // a value for a place that is never looked at
    ghost none: { Self };

    // the value as a float
    ghost to_float: { Self → Float };

    // a mean as it is stored
    ghost of_mean: { Float → Self };

    // an opcode's constant at a scale, and whether a sample equals it
    ghost constant_at: { Float → ℕ → Self.Constant };

    ghost equals: { Self.Constant → Self → Bool };

    // the row-local rules
    ghost rule: { Frame → Opcode → List ℕ → Rule Self };

    fn to_f32(self) -> f32
        ensures { result ≡ to_float self };

    fn from_mean(mean: f32) -> Self
        ensures { result ≡ of_mean mean };

    fn constant(c: u32, scale: f32) -> Self::Constant
        ensures { result ≡ constant_at scale c };

    // The sample that equals a constant; none where no sample can.
    fn sought(samples: &[Self], c: Self::Constant) -> Option<Self>
        ensures { MatchOption result
            ((k : ℕ) → k < length samples.now → equals c (get_or samples.now k none) ≡ false)
            (λ s. (λ v. Self.eq v s) ≡ equals c) };
}

impl Sample for f32 {
    type Constant = f32;

    ghost none = { nan };

    ghost to_float = { λ v. v };

    ghost of_mean = { λ v. v };

    ghost constant_at = { λ scale c. div binary32 (whole_in binary32 c) scale };

    ghost equals = { λ c v. eq v c };

    ghost rule = { rule_of };

    fn to_f32(self) -> f32 {
        self
    }

    fn from_mean(mean: f32) -> f32 {
        mean
    }

    fn constant(c: u32, scale: f32) -> f32 {
        num_convert::f32_of_u32(c) / scale
    }

    fn sought(_samples: &[f32], c: f32) -> Option<f32> {
        Some(c)
    }
}

// Whole numbers are compared as they stand, and have no scale. A mean is rounded to whole and held to 0..65535.
impl Sample for u16 {
    type Constant = u32;

    ghost none = { 0 };

    ghost to_float = { λ v. whole_in binary32 v };

    ghost of_mean = { λ v. round_held 65535 v };

    ghost constant_at = { λ scale c. c };

    ghost equals = { λ c v. eqb v c };

    ghost rule = { λ fr. rule16_of };

    fn to_f32(self) -> f32 {
        num_convert::f32_of_u16(self)
    }

    fn from_mean(mean: f32) -> u16 {
        num_round::round_u16(mean)
    }

    fn constant(c: u32, _scale: f32) -> u32 {
        c
    }

    fn sought(_samples: &[u16], c: u32) -> Option<u16> {
        u16::try_from(c).ok()
    }
}

// Proved and never called: the members above are those of the paper's two kinds, so what a contract over `S: Sample`
// says of f32 and of u16 is what the paper says.
pub fn kinds_are_the_papers()
    ensures f32 { IsKind ⟦<f32 as Sample>⟧.none ⟦<f32 as Sample>⟧.to_float ⟦<f32 as Sample>⟧.of_mean
        ⟦<f32 as Sample>⟧.constant_at ⟦<f32 as Sample>⟧.equals ⟦<f32 as Sample>⟧.rule f32_kind }
    ensures u16 { IsKind ⟦<u16 as Sample>⟧.none ⟦<u16 as Sample>⟧.to_float ⟦<u16 as Sample>⟧.of_mean
        ⟦<u16 as Sample>⟧.constant_at ⟦<u16 as Sample>⟧.equals ⟦<u16 as Sample>⟧.rule (λ fr. u16_kind) }
{}
