// Answers 2 to 4: mill, the width rules, and sizes above their maximum.
ghost use Rattle.std.specs.Prelude.{◌≡◌, true};
ghost use Rattle.machine.specs.Answers.{verdict};
ghost use Rattle.machine.specs.Setting.{maccq};
ghost use Rattle.machine.specs.TransferWords.{width_of};
ghost use Rattle.machine.specs.ArithmeticWords.{width_ok};
ghost use Rattle.machine.specs.Operation.{times, rows_of, columns_of};
ghost use Rattle.machine.specs.declared.Matrix.TheVariants.{MatrixC};
ghost use Rattle.unit_settings.specs.Parts.{Ready, legal_types};
ghost use Rattle.unit_checks.specs.Parts.{transfer_checks, elementwise_checks, multiply_checks};
ghost use Rattle.machine.specs.Tests.{is_in};

use machine::{Answer, Dimension, Factor, Machine, Matrix, Refusal};
use unit_settings::{fits, is_mill, sew_bytes};

fn is_maccq(mtype: u64) -> bool
    ensures { result ≡ maccq mtype }
{
    mtype / 8 % 2 == 1
}

// The width rule of loads and stores of C.
fn accumulator_width(elen: u64, mtype: u64, width: usize) -> bool
    requires { is_in mtype legal_types ≡ true }
    ensures { result ≡ width_of elen mtype MatrixC width }
{
    let sew = sew_bytes(mtype);
    if width as u64 > elen / 8 {
        return false;
    }
    if width == sew {
        return true;
    }
    if width == 2 * sew {
        return true;
    }
    if !is_maccq(mtype) {
        return false;
    }
    width == 4 * sew
}

// The width rule of loads and stores.
fn transfer_width(elen: u64, mtype: u64, matrix: Matrix, width: usize) -> bool
    requires { is_in mtype legal_types ≡ true }
    ensures { result ≡ width_of elen mtype matrix width }
{
    let plain = width == sew_bytes(mtype);
    match matrix {
        Matrix::MatrixA => plain,
        Matrix::MatrixB => plain,
        Matrix::MatrixC => accumulator_width(elen, mtype, width),
    }
}

// The width rule of arithmetic.
fn factor_width(elen: u64, mtype: u64, factor: Factor) -> bool
    requires { is_in mtype legal_types ≡ true }
    ensures { result ≡ width_ok elen mtype (times factor) }
{
    let sew = sew_bytes(mtype) as u64;
    match factor {
        Factor::Single => 8 * sew <= elen,
        Factor::Double => 16 * sew <= elen,
        Factor::Quadruple => {
            if 32 * sew > elen {
                return false;
            }
            is_maccq(mtype)
        }
    }
}

fn rows_of(matrix: Matrix) -> Dimension
    ensures { result ≡ rows_of matrix }
{
    match matrix {
        Matrix::MatrixA => Dimension::DimensionM,
        Matrix::MatrixB => Dimension::DimensionK,
        Matrix::MatrixC => Dimension::DimensionM,
    }
}

fn columns_of(matrix: Matrix) -> Dimension
    ensures { result ≡ columns_of matrix }
{
    match matrix {
        Matrix::MatrixA => Dimension::DimensionK,
        Matrix::MatrixB => Dimension::DimensionN,
        Matrix::MatrixC => Dimension::DimensionN,
    }
}

// Answers 2 to 4 of a load or a store.
pub fn check_transfer(m: Machine, matrix: Matrix, width: usize) -> Answer
    requires { Ready m }
    ensures { result ≡ verdict (transfer_checks m matrix width) }
{
    if is_mill(m.mtype) {
        return Err(Refusal::IllegalType);
    }
    if !transfer_width(m.elen, m.mtype, matrix, width) {
        return Err(Refusal::BadWidth);
    }
    if !fits(m, rows_of(matrix)) {
        return Err(Refusal::TileTooLarge);
    }
    if !fits(m, columns_of(matrix)) {
        return Err(Refusal::TileTooLarge);
    }
    Ok(())
}

// Answers 2 to 4 of an element-wise instruction.
pub fn check_elementwise(m: Machine, factor: Factor) -> Answer
    requires { Ready m }
    ensures { result ≡ verdict (elementwise_checks m (times factor)) }
{
    if is_mill(m.mtype) {
        return Err(Refusal::IllegalType);
    }
    if !factor_width(m.elen, m.mtype, factor) {
        return Err(Refusal::BadWidth);
    }
    if !fits(m, Dimension::DimensionM) {
        return Err(Refusal::TileTooLarge);
    }
    if !fits(m, Dimension::DimensionN) {
        return Err(Refusal::TileTooLarge);
    }
    Ok(())
}

// Answers 2 to 4 of a multiply.
pub fn check_multiply(m: Machine, factor: Factor) -> Answer
    requires { Ready m }
    ensures { result ≡ verdict (multiply_checks m (times factor)) }
{
    if is_mill(m.mtype) {
        return Err(Refusal::IllegalType);
    }
    if !factor_width(m.elen, m.mtype, factor) {
        return Err(Refusal::BadWidth);
    }
    if !fits(m, Dimension::DimensionM) {
        return Err(Refusal::TileTooLarge);
    }
    if !fits(m, Dimension::DimensionK) {
        return Err(Refusal::TileTooLarge);
    }
    if !fits(m, Dimension::DimensionN) {
        return Err(Refusal::TileTooLarge);
    }
    Ok(())
}
