// Polynomials, on one plane of a lent row.
#![tactic(auto)]

ghost use Rattle.std.specs.Prelude.{◌≡◌, ℕ, ◌+◌, ◌*◌, ◌≤◌, ◌<◌, length, get_or};
ghost use Rattle.row_select.specs.Walks.{walked, Walks};
ghost use Rattle.dng.specs.Value.{map_polynomial, nought};
ghost use Rattle.num_narrow.specs.Narrow.{narrow};
ghost use Rattle.row_polynomial.specs.Terms.{Holds, value_of, wide_of};
ghost use Rattle.row_polynomial.specs.Blocks.{Counted, Block, Evaluated, written};

mod polynomial;

use polynomial::Polynomial;
use row_select::{Walk, stop_of};

impl Polynomial {
    fn read(body: &[u8], degree: u32, scale: f32) -> Self
        requires { degree ≤ 8 }
        ensures { Holds result degree scale body.now }
    {
        let mut terms = [0.0; 9];
        for k in 0..degree as usize + 1 {
            terms[k] = num_words::f64_at(body, 36 + 8 * k);
        }
        Polynomial {
            terms,
            degree,
            scale,
            scale64: num_convert::widen(scale),
        }
    }

    // Horner from 0.0 over the low N. A 0.0 above the highest coefficient changes nothing, and N is a number that the
    // compiler knows: no loop is left.
    fn horner<const N: usize>(self, x: f64) -> f64
        requires all { self.degree < N }
        requires few { N ≤ 9 }
        ensures { result ≡ value_of self x }
    {
        let mut sum = 0.0;
        for k in (0..N).rev() {
            sum = sum * x + self.terms[k];
        }
        sum
    }

    // Most polynomials have at most four coefficients.
    fn value(self, x: f64) -> f64
        ensures { result ≡ value_of self x }
    {
        match self.degree {
            0..=3 => self.horner::<4>(x),
            4 => self.horner::<5>(x),
            _ => self.horner::<9>(x),
        }
    }

    // What is narrowed to the new value of v: v = 65535 / scale stands for 1.
    fn wide(self, v: f32) -> f64
        ensures { result ≡ wide_of self v }
    {
        let x = num_convert::widen(v * self.scale / 65535.0);
        self.value(x) * 65535.0 / self.scale64
    }

    // The same for samples i, i + step and so on. One test of the loop depends on a value, `num_convert::widen`'s for a
    // NaN, and in vector code that is a selection: so the loop compiles to vector code, once for each case of the degree.
    fn evaluate(self, row: &[f32], i: usize, step: usize, xs: &mut [f64])
        requires { Block i step (length xs.old) (length row.now) }
        ensures { Evaluated self i step row.now xs.new }
    {
        for (j, x) in xs.iter_mut().enumerate() {
            *x = self.wide(row[i + j * step]);
        }
    }

    // At the walk's samples, block after block: evaluated, then written, in two short passes, so that many are under way
    // at once.
    fn apply(self, row: &mut [f32], k: Walk)
        requires { Walks k (length row.old) }
        ensures { row.new ≡ walked k (λ x p v. narrow (wide_of self v)) row.old }
    {
        let stop = stop_of(k, row.len());
        let step = k.pitch * k.planes;
        let mut xs = [0.0; 64];
        for i in (k.col * k.planes + k.plane..stop).step_by(64 * step) {
            let n = count_of(i, step, stop);
            self.evaluate(row, i, step, &mut xs[..n]);
            write_block(row, i, step, &xs[..n]);
        }
    }
}

// ---- a block: samples i, i + step and so on

// How many samples the block has: 64, or those that are left, which are counted one by one: a division would cost more
// than they do in a short row.
fn count_of(i: usize, step: usize, stop: usize) -> usize
    requires { (i < stop) × (stop ≤ 524288) × (1 ≤ step) × (step < 34359738368) }
    ensures { Counted i step stop result }
{
    if i + 63 * step < stop {
        return 64;
    }
    if step == 1 {
        return stop - i;
    }
    let mut n = 0;
    for _at in (i..stop).step_by(step) {
        n += 1;
    }
    n
}

// The values, narrowed, into the samples.
fn write_block(row: &mut [f32], i: usize, step: usize, xs: &[f64])
    requires { Block i step (length xs.now) (length row.old) }
    ensures { row.new ≡ written i step xs.now (length xs.now) row.old }
{
    for (j, x) in xs.iter().enumerate() {
        row[i + j * step] = num_narrow::to_f32(*x);
    }
}

// ---- a row

// The polynomial at the walk's samples.
pub fn polynomial_row(row: &mut [f32], k: Walk, body: &[u8], degree: u32, scale: f32)
    requires { (Walks k (length row.old)) × (degree ≤ 8) }
    ensures { row.new ≡ walked k (λ x p v. map_polynomial scale degree body.now v)
        row.old }
{
    Polynomial::read(body, degree, scale).apply(row, k);
}
