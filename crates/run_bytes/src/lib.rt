// Samples that stand in bytes, little-endian: out of the bytes into typed room that the caller lends, and back; and the
// room cleared.
#![tactic(auto)]

ghost use Rattle.std.specs.Prelude.{◌≡◌, ℕ, ◌*◌, ◌≤◌, List, length};
ghost use Rattle.std.proofs.Common.{rules};
ghost use Rattle.std.specs.Float.{nan, binary32};
ghost use Rattle.std.specs.Float.Ieee.{to_bits};
ghost use Rattle.num_words.specs.Words.{put};
ghost use Rattle.dng.specs.Value.{nought};
ghost use Rattle.run_bytes.specs.Samples.{float_at, whole_at, decoded, encoded, cleared, IsInBytes};

use sample::Sample;

// A kind of sample as its bytes.
pub trait InBytes: Sample {
    // How many bytes a sample takes.
    const SIZE: usize;

    const ZERO: Self;

    ghost SIZE: { ℕ };

    ghost ZERO: { Self };

    // the sample i of the bytes
    ghost at: { List ℕ → ℕ → Self };

    // a sample's pattern
    ghost bits: { Self → ℕ };

    fn from_bytes(bytes: &[u8], i: usize) -> Self
        requires { i * SIZE ≤ length bytes.now }
        ensures { result ≡ at bytes.now i };

    fn put(self, bytes: &mut [u8], i: usize)
        requires { i * SIZE ≤ length bytes.old }
        ensures { bytes.new ≡ put SIZE bytes.old (i * SIZE) (bits self) };

    ghost some: { 1 ≤ SIZE };
}

impl InBytes for f32 {
    const SIZE: usize = 4;

    const ZERO: f32 = 0.0;

    ghost SIZE = { 4 };

    ghost ZERO = { nought };

    ghost at = { float_at };

    ghost bits = { to_bits binary32 };

    ghost some = { Prim.search rules };

    fn from_bytes(bytes: &[u8], i: usize) -> f32 {
        num_words::f32_from(bytes, i * 4)
    }

    fn put(self, bytes: &mut [u8], i: usize) {
        num_words::put_f32(bytes, i * 4, self);
    }
}

impl InBytes for u16 {
    const SIZE: usize = 2;

    const ZERO: u16 = 0;

    ghost SIZE = { 2 };

    ghost ZERO = { 0 };

    ghost at = { whole_at };

    ghost bits = { λ n. n };

    ghost some = { Prim.search rules };

    fn from_bytes(bytes: &[u8], i: usize) -> u16 {
        num_words::u16_from(bytes, i * 2)
    }

    fn put(self, bytes: &mut [u8], i: usize) {
        num_words::put_u16(bytes, i * 2, self);
    }
}

// Proved and never called: the members above are those of the paper's two kinds, so what the calls below promise of f32
// and of u16 is what the paper says.
pub fn bytes_are_the_papers()
    ensures f32 { IsInBytes ⟦<f32 as InBytes>⟧.SIZE ⟦<f32 as InBytes>⟧.ZERO ⟦<f32 as InBytes>⟧.at
        ⟦<f32 as InBytes>⟧.bits ⟦<f32 as Sample>⟧.none 4 nought float_at (to_bits binary32) nan }
    ensures u16 { IsInBytes ⟦<u16 as InBytes>⟧.SIZE ⟦<u16 as InBytes>⟧.ZERO ⟦<u16 as InBytes>⟧.at
        ⟦<u16 as InBytes>⟧.bits ⟦<u16 as Sample>⟧.none 2 0 whole_at (λ n. n) 0 }
{}

pub fn decode<S: InBytes>(bytes: &[u8], room: &mut [S])
    requires { length room.old * S.SIZE ≤ length bytes.now }
    ensures { room.new ≡ decoded (S.at bytes.now) room.old }
{
    for i in 0..room.len() {
        room[i] = S::from_bytes(bytes, i);
    }
}

pub fn encode<S: InBytes>(room: &[S], bytes: &mut [u8])
    requires { length room.now * S.SIZE ≤ length bytes.old }
    ensures { bytes.new ≡ encoded S.SIZE S.bits S.none room.now bytes.old }
{
    for i in 0..room.len() {
        room[i].put(bytes, i);
    }
}

pub fn clear<S: InBytes>(room: &mut [S])
    ensures { room.new ≡ cleared S.ZERO room.old }
{
    // `fill` asks for a clone that cannot fail, and no bound says that
    for v in room.iter_mut() {
        *v = S::ZERO;
    }
}
