// Black level before list 2, as C and Rust call it: document 02's number for the answer (M-109). The forms over bytes
// are lent typed room for the frame's samples, as they are and as they become; too little of it is 100, after the
// others.
ghost use Rattle.std.specs.Prelude.{◌≡◌, ℕ, ◌*◌, ◌/◌, ◌≤◌, List, length, replicate};
ghost use Rattle.std.specs.Float.{nan, binary32};
ghost use Rattle.num_convert.specs.Convert.{whole_in};
ghost use Rattle.dng.specs.Value.{nought};
ghost use Rattle.run_bytes.specs.Samples.{float_at, whole_at, floats_in, wholes_in, decoded, cleared};
ghost use Rattle.row_black.specs.Black.{levels, levels_in, total, black_out};
ghost use Rattle.rolbhunga.specs.Black.{BlackTold, frame_in, BlackPut, BlackBytes, BlackLent};

use row_black::{Field, Lent, Pattern};
use run_bytes::InBytes;
use sample::Sample;

fn lent<'a>(
    p: Pattern,
    blacks: &'a [f32],
    scales: &'a [f32],
    rows: &'a [f32],
    columns: &'a [f32],
) -> Lent<'a>
    ensures { levels_in result ≡ levels p blacks.now scales.now rows.now columns.now }
{
    Lent {
        pattern: p,
        blacks,
        scales,
        rows,
        columns,
    }
}

fn told<S: Sample>(input: &[S], out: &mut [f32], f: Field, lent: Lent) -> u32
    ensures { BlackTold
        (black_out S.none S.to_float f (levels_in lent.entry) input.now out.old)
        result out.new }
{
    row_black::number(row_black::black(input, out, f, lent))
}

// A function for each kind of sample, and each parameter by itself: the C interface.
pub fn rolbhunga_black_f32(
    input: &[f32],
    out: &mut [f32],
    f: Field,
    p: Pattern,
    blacks: &[f32],
    scales: &[f32],
    rows: &[f32],
    columns: &[f32],
) -> u32
    ensures { BlackTold
        (black_out nan (λ x. x) f
        (levels p blacks.now scales.now rows.now columns.now)
        input.now out.old)
        result out.new }
{
    told::<f32>(input, out, f, lent(p, blacks, scales, rows, columns))
}

pub fn rolbhunga_black_u16(
    input: &[u16],
    out: &mut [f32],
    f: Field,
    p: Pattern,
    blacks: &[f32],
    scales: &[f32],
    rows: &[f32],
    columns: &[f32],
) -> u32
    ensures { BlackTold
        (black_out 0 (whole_in binary32) f
        (levels p blacks.now scales.now rows.now columns.now)
        input.now out.old)
        result out.new }
{
    told::<u16>(input, out, f, lent(p, blacks, scales, rows, columns))
}

// ---- samples in bytes

// The samples of the frame, with room for each of them and no more.
fn write<S: InBytes>(
    input: &[u8],
    bytes: &mut [u8],
    f: Field,
    lent: Lent,
    work: &mut [S],
    made: &mut [f32],
)
    requires { BlackLent f lent.pattern (length lent.blacks.now) (length lent.scales.now) S.SIZE (length input.now)
        (length bytes.old) (length work.old) (length made.old) }
    ensures { bytes.new
        ≡ frame_in
        (black_out S.none S.to_float f (levels_in lent.entry)
        (decoded (S.at input.now) (replicate (length input.now / S.SIZE) S.ZERO))
        (floats_in bytes.old))
        (total f) bytes.old }
{
    run_bytes::decode(input, &mut *work);
    // what is lent is enough
    let _ = row_black::black(work, &mut *made, f, lent);
    run_bytes::encode(made, bytes);
}

// By the tests of the call, and then by the rooms.
fn try_frame<S: InBytes>(
    input: &[u8],
    bytes: &mut [u8],
    f: Field,
    lent: Lent,
    work: &mut [S],
    made: &mut [f32],
) -> u32
    ensures { BlackPut
        (black_out S.none S.to_float f (levels_in lent.entry)
        (decoded (S.at input.now) (replicate (length input.now / S.SIZE) S.ZERO))
        (floats_in bytes.old))
        (total f) bytes.old (length work.old) (length made.old) result bytes.new }
{
    let (blacks, scales) = (lent.blacks.len(), lent.scales.len());
    let held = input.len() / S::SIZE;
    let a = row_black::answer(f, lent.pattern, blacks, scales, held, bytes.len() / 4);
    if a.is_err() {
        return row_black::number(a);
    }
    let n = row_black::samples_of(f);
    if work.len() < n {
        return 100;
    }
    if made.len() < n {
        return 100;
    }
    write(input, bytes, f, lent, &mut work[..n], &mut made[..n]);
    0
}

fn told_in_bytes<S: InBytes>(
    input: &[u8],
    bytes: &mut [u8],
    f: Field,
    lent: Lent,
    work: &mut [S],
    made: &mut [f32],
) -> u32
    ensures { BlackBytes S.ZERO
        (black_out S.none S.to_float f (levels_in lent.entry)
        (decoded (S.at input.now) (replicate (length input.now / S.SIZE) S.ZERO))
        (floats_in bytes.old))
        (total f) bytes.old (length work.old) (length made.old) result bytes.new
        work.new made.new }
{
    let r = try_frame(input, bytes, f, lent, &mut *work, &mut *made);
    run_bytes::clear(work);
    run_bytes::clear(made);
    r
}

pub fn rolbhunga_bytes_black_f32(
    input: &[u8],
    bytes: &mut [u8],
    f: Field,
    p: Pattern,
    blacks: &[f32],
    scales: &[f32],
    rows: &[f32],
    columns: &[f32],
    work: &mut [f32],
    made: &mut [f32],
) -> u32
    ensures { BlackBytes nought
        (black_out nan (λ x. x) f
        (levels p blacks.now scales.now rows.now columns.now)
        (floats_in input.now) (floats_in bytes.old))
        (total f) bytes.old (length work.old) (length made.old) result bytes.new
        work.new made.new }
{
    told_in_bytes(
        input,
        bytes,
        f,
        lent(p, blacks, scales, rows, columns),
        work,
        made,
    )
}

pub fn rolbhunga_bytes_black_u16(
    input: &[u8],
    bytes: &mut [u8],
    f: Field,
    p: Pattern,
    blacks: &[f32],
    scales: &[f32],
    rows: &[f32],
    columns: &[f32],
    work: &mut [u16],
    made: &mut [f32],
) -> u32
    ensures { BlackBytes 0
        (black_out 0 (whole_in binary32) f
        (levels p blacks.now scales.now rows.now columns.now)
        (wholes_in input.now) (floats_in bytes.old))
        (total f) bytes.old (length work.old) (length made.old) result bytes.new
        work.new made.new }
{
    told_in_bytes(
        input,
        bytes,
        f,
        lent(p, blacks, scales, rows, columns),
        work,
        made,
    )
}
