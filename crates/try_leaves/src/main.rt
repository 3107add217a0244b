// Runs every leaf over a dense set of bit patterns and prints a sum of what it gave for each sweep. The stored output
// was printed by the Rust of compare/leaves/leaves.rs, which works the same sweeps out with Rust's own casts and
// functions.
#![tactic(auto)]

use std::io;

// What a leaf gives at a bit pattern, as a number.
fn leaf(kind: u32, bits: u64) -> u64 {
    let low = (bits % 0x1_0000_0000) as u32;
    match kind {
        0 => num_words::bits_of(num_narrow::to_f32(num_words::f64_of(bits))) as u64,
        1 => num_round::round_held(num_words::f32_of(low), 65535) as u64,
        2 => num_round::round_held(num_words::f32_of(low), 16777215) as u64,
        3 => num_round::round_u16(num_words::f32_of(low)) as u64,
        4 => floored(num_words::f64_of(bits)),
        5 => num_words::bits_of(num_convert::f32_of_u32(low)) as u64,
        6 => num_words::bits_of(num_narrow::to_f32(num_convert::f64_of_u32(low))) as u64,
        7 => num_words::bits_of(num_narrow::to_f32(num_convert::widen(num_words::f32_of(
            low,
        )))) as u64,
        8 => num_words::bits_of(num_narrow::to_f32(num_convert::held(
            num_words::f64_of(bits),
            0.0,
            4095.0,
        ))) as u64,
        9 => num_words::bits_of(num_convert::f32_of_u16((bits % 65536) as u16)) as u64,
        _ => in_bytes(bits),
    }
}

fn floored(f: f64) -> u64 {
    let r = num_round::floor(f);
    let index = r.index;
    let rest = r.rest;
    index as u64 + num_words::bits_of(num_narrow::to_f32(rest)) as u64
}

// The eight bytes of the pattern, the highest first, read and written at each width, some words running past the end.
fn in_bytes(bits: u64) -> u64 {
    let mut s = bits.to_be_bytes();
    let at = (bits % 11) as usize;
    let big = num_words::u16_at(&s, at) as u64
        + num_words::u32_at(&s, at) as u64
        + num_words::u64_at(&s, at) % 0x1_0000_0000;
    let floats = num_words::bits_of(num_words::f32_at(&s, at)) as u64
        + num_words::bits_of(num_narrow::to_f32(num_words::f64_at(&s, at))) as u64;
    let low = num_words::u16_from(&s, at) as u64
        + num_words::bits_of(num_words::f32_from(&s, at)) as u64;
    num_words::put_u16(&mut s, at, 0x1234);
    num_words::put_f32(&mut s, (at + 5) % 11, 1.5);
    big + floats + low + num_words::u64_at(&s, 0) % 0x1_0000_0000
}

fn mixed(sum: u64, v: u64) -> u64 {
    (sum % 0x1_0000_0000) * 16777619 + v % 0x1_0000_0000
}

// The leaf at n patterns, `step` apart.
fn sweep(kind: u32, from: u64, step: u64, n: u32) -> u64 {
    let mut sum: u64 = 0;
    let mut bits = from;
    for _ in 0..n {
        sum = mixed(sum, leaf(kind, bits));
        bits = bits.wrapping_add(step);
    }
    sum % 0x1_0000_0000
}

fn line(rt: &HostRuntime, kind: u32, from: u64, step: u64, n: u32) -> io::Result<()> {
    let sum = sweep(kind, from, step, n);
    println!(rt; "{kind} {from:016x} {step:016x} {n} {sum:08x}")
}

// A sweep over all patterns of 64 bits, and one over all of 32 bits in both halves.
fn all(rt: &HostRuntime, kind: u32) -> io::Result<()> {
    line(rt, kind, 0, 0x0000_1357_9bdf_0245, 900000)?;
    line(
        rt,
        kind,
        0x8000_0000_0000_0001,
        0x0000_0000_0001_0f3d,
        300000,
    )?;
    line(
        rt,
        kind,
        0x7ff0_0000_0000_0000,
        0x0000_0000_0000_10f3,
        100000,
    )
}

// Around a pattern, one by one.
fn near(rt: &HostRuntime, kind: u32, bits: u64) -> io::Result<()> {
    line(rt, kind, bits.wrapping_sub(500), 1, 1000)
}

fn main(rt: HostRuntime) -> io::Result<()> {
    all(&rt, 0)?;
    near(&rt, 0, 0x3690_0000_0000_0000)?;
    near(&rt, 0, 0x36a0_0000_0000_0000)?;
    near(&rt, 0, 0x3810_0000_0000_0000)?;
    near(&rt, 0, 0x380f_ffff_e000_0000)?;
    near(&rt, 0, 0x3ff0_0000_1000_0000)?;
    near(&rt, 0, 0x3ff0_0000_3000_0000)?;
    near(&rt, 0, 0xbfff_ffff_f000_0000)?;
    near(&rt, 0, 0x47ef_ffff_e000_0000)?;
    near(&rt, 0, 0x47ef_ffff_f000_0000)?;
    near(&rt, 0, 0x7ff0_0000_0000_0000)?;
    all(&rt, 1)?;
    near(&rt, 1, 0x3f00_0000)?;
    near(&rt, 1, 0x4700_0000)?;
    near(&rt, 1, 0x477f_ff00)?;
    all(&rt, 2)?;
    near(&rt, 2, 0x4affffff)?;
    near(&rt, 2, 0x4b80_0000)?;
    near(&rt, 2, 0x7f80_0000)?;
    all(&rt, 3)?;
    near(&rt, 3, 0xbf00_0000)?;
    all(&rt, 4)?;
    near(&rt, 4, 0x3ff0_0000_0000_0000)?;
    near(&rt, 4, 0x4170_0000_0000_0000)?;
    near(&rt, 4, 0x41f0_0000_0000_0000)?;
    near(&rt, 4, 0x8000_0000_0000_0000)?;
    all(&rt, 5)?;
    near(&rt, 5, 0x0100_0000)?;
    near(&rt, 5, 0xffff_ff80)?;
    all(&rt, 6)?;
    all(&rt, 7)?;
    all(&rt, 8)?;
    near(&rt, 8, 0x40af_fe00_0000_0000)?;
    all(&rt, 9)?;
    all(&rt, 10)?;
    near(&rt, 10, 0x0000_0001_7f80_0000)?;
    Ok(())
}
