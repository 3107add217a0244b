// Black level, for C.
ghost use Rattle.std.specs.Prelude.{◌≡◌, length};
ghost use Rattle.std.specs.Float.{nan, binary32};
ghost use Rattle.num_convert.specs.Convert.{whole_in};
ghost use Rattle.dng.specs.Value.{nought};
ghost use Rattle.run_bytes.specs.Samples.{floats_in, wholes_in};
ghost use Rattle.row_black.specs.Black.{levels, total, black_out};
ghost use Rattle.rolbhunga.specs.Black.{BlackTold, frame_in, BlackPut, BlackBytes, BlackLent};

use row_black::{Field, Pattern};

#[unsafe(no_mangle)]
pub extern "C" fn rolbhunga_black_f32(
    input: &[f32],
    out: &mut [f32],
    f: Field,
    p: Pattern,
    blacks: &[f32],
    scales: &[f32],
    rows: &[f32],
    columns: &[f32],
) -> u32
    ensures { BlackTold
        (black_out nan (λ x. x) f
        (levels p blacks.now scales.now rows.now columns.now)
        input.now out.old)
        result out.new }
{
    rolbhunga::black::rolbhunga_black_f32(input, out, f, p, blacks, scales, rows, columns)
}

#[unsafe(no_mangle)]
pub extern "C" fn rolbhunga_black_u16(
    input: &[u16],
    out: &mut [f32],
    f: Field,
    p: Pattern,
    blacks: &[f32],
    scales: &[f32],
    rows: &[f32],
    columns: &[f32],
) -> u32
    ensures { BlackTold
        (black_out 0 (whole_in binary32) f
        (levels p blacks.now scales.now rows.now columns.now)
        input.now out.old)
        result out.new }
{
    rolbhunga::black::rolbhunga_black_u16(input, out, f, p, blacks, scales, rows, columns)
}

#[unsafe(no_mangle)]
pub extern "C" fn rolbhunga_bytes_black_f32(
    input: &[u8],
    bytes: &mut [u8],
    f: Field,
    p: Pattern,
    blacks: &[f32],
    scales: &[f32],
    rows: &[f32],
    columns: &[f32],
    work: &mut [f32],
    made: &mut [f32],
) -> u32
    ensures { BlackBytes nought
        (black_out nan (λ x. x) f
        (levels p blacks.now scales.now rows.now columns.now)
        (floats_in input.now) (floats_in bytes.old))
        (total f) bytes.old (length work.old) (length made.old) result bytes.new
        work.new made.new }
{
    rolbhunga::black::rolbhunga_bytes_black_f32(
        input, bytes, f, p, blacks, scales, rows, columns, work, made,
    )
}

#[unsafe(no_mangle)]
pub extern "C" fn rolbhunga_bytes_black_u16(
    input: &[u8],
    bytes: &mut [u8],
    f: Field,
    p: Pattern,
    blacks: &[f32],
    scales: &[f32],
    rows: &[f32],
    columns: &[f32],
    work: &mut [u16],
    made: &mut [f32],
) -> u32
    ensures { BlackBytes 0
        (black_out 0 (whole_in binary32) f
        (levels p blacks.now scales.now rows.now columns.now)
        (wholes_in input.now) (floats_in bytes.old))
        (total f) bytes.old (length work.old) (length made.old) result bytes.new
        work.new made.new }
{
    rolbhunga::black::rolbhunga_bytes_black_u16(
        input, bytes, f, p, blacks, scales, rows, columns, work, made,
    )
}
