// Answers 2 to 5 of multiplies and element-wise instructions: what is read was written.
ghost use Rattle.std.specs.Prelude.{◌≡◌, true, [], ◌∷◌, ◌<◌};
ghost use Rattle.machine.specs.Answers.{verdict, is_done};
ghost use Rattle.machine.specs.Operation.{times};
ghost use Rattle.unit_checks.specs.Parts.{multiply_checks, MarksReady, AccumulatorFits, source_checks, accumulator_check, product_checks, target_checks, float_checks, combine_checks, scale_checks};

use super::sizes::{check_elementwise, check_multiply};
use machine::{Answer, Factor, Machine, Matrix, Refusal};
use unit_geometry::{factor_of, tile_of};
use unit_settings::{is_mill, sew_bytes};

// Answer 5 of a multiply's sources: nothing is read where C has no element.
fn source_marks(m: Machine, marks: &[u8], factor: Factor, ms1: usize, ms2: usize) -> Answer
    requires marks_ready { MarksReady m marks.now }
    requires factor_value { is_done (verdict (multiply_checks m (times factor))) ≡ true }
    requires ms1_bound { (ms1 < 8) × (ms2 < 8) }
    ensures { result ≡ verdict (source_checks m marks.now ms1 ms2) }
{
    if m.tile_m == 0 {
        return Ok(());
    }
    if m.tile_n == 0 {
        return Ok(());
    }
    let w = sew_bytes(m.mtype);
    let a = tile_of(m, Matrix::MatrixA, ms1);
    unit_tile::first_unmarked(marks, a.start, a.pitch, a.rows, a.columns, w)?;
    let b = tile_of(m, Matrix::MatrixB, ms2);
    unit_tile::first_unmarked(marks, b.start, b.pitch, b.rows, b.columns, w)
}

// Answer 5 of accumulator r at width bytes an element.
fn accumulator_marks(m: Machine, marks: &[u8], r: usize, width: usize) -> Answer
    requires marks_ready { MarksReady m marks.now }
    requires accumulator_fits { AccumulatorFits m r width }
    ensures { result ≡ verdict (accumulator_check m marks.now r width ∷ []) }
{
    let c = tile_of(m, Matrix::MatrixC, r);
    unit_tile::first_unmarked(marks, c.start, c.pitch, c.rows, c.columns, width)
}

// Answers 2 to 5 of a multiply.
pub fn check_product(
    m: Machine,
    marks: &[u8],
    factor: Factor,
    md: usize,
    ms1: usize,
    ms2: usize,
) -> Answer
    requires marks_ready { MarksReady m marks.now }
    requires md_bound { (md < 2) × ((ms1 < 8) × (ms2 < 8)) }
    ensures { result ≡ verdict (product_checks m marks.now (times factor) md ms1 ms2) }
{
    check_multiply(m, factor)?;
    source_marks(m, marks, factor, ms1, ms2)?;
    let wide = factor_of(factor) * sew_bytes(m.mtype);
    accumulator_marks(m, marks, md, wide)
}

// Answers 2 to 5 of a multiply, but for its sources.
pub fn check_target(m: Machine, marks: &[u8], factor: Factor, md: usize) -> Answer
    requires marks_ready { MarksReady m marks.now }
    requires md_bound { md < 2 }
    ensures { result ≡ verdict (target_checks m marks.now (times factor) md) }
{
    check_multiply(m, factor)?;
    let wide = factor_of(factor) * sew_bytes(m.mtype);
    accumulator_marks(m, marks, md, wide)
}

// Answers 2 to 5 of add, subtract and reverse subtract.
pub fn check_combine(m: Machine, marks: &[u8], factor: Factor, md: usize, ms1: usize) -> Answer
    requires marks_ready { MarksReady m marks.now }
    requires md_bound { (md < 2) × (ms1 < 2) }
    ensures { result ≡ verdict (combine_checks m marks.now (times factor) md ms1) }
{
    check_elementwise(m, factor)?;
    let width = sew_bytes(m.mtype);
    accumulator_marks(m, marks, ms1, width)?;
    let wide = factor_of(factor) * width;
    accumulator_marks(m, marks, md, wide)
}

// Answers 2 to 5 of an element-wise multiply: by 0 no source is read.
pub fn check_scale(m: Machine, marks: &[u8], factor: Factor, ms1: usize, by_zero: bool) -> Answer
    requires marks_ready { MarksReady m marks.now }
    requires ms1_bound { ms1 < 2 }
    ensures { result ≡ verdict (scale_checks m marks.now (times factor) ms1 by_zero) }
{
    check_elementwise(m, factor)?;
    if by_zero {
        return Ok(());
    }
    let width = sew_bytes(m.mtype);
    accumulator_marks(m, marks, ms1, width)
}

// Answers 2 to 5 of a float multiply: SEW is 32, all else as for a multiply of single width.
pub fn check_float(m: Machine, marks: &[u8], md: usize, ms1: usize, ms2: usize) -> Answer
    requires marks_ready { MarksReady m marks.now }
    requires md_bound { (md < 2) × ((ms1 < 8) × (ms2 < 8)) }
    ensures { result ≡ verdict (float_checks m marks.now md ms1 ms2) }
{
    if is_mill(m.mtype) {
        return Err(Refusal::IllegalType);
    }
    if sew_bytes(m.mtype) != 4 {
        return Err(Refusal::BadWidth);
    }
    check_product(m, marks, Factor::Single, md, ms1, ms2)
}
