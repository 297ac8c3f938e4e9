// Multiply, float multiply, add, subtract, reverse subtract, and multiply by a number: answers 2 to 5, and the effect.
ghost use Rattle.std.specs.Prelude.{ℤ, ◌≡◌, true, [], ◌<◌, ◌*◌, ◌^◌, eqb};
ghost use Rattle.numbers.specs.Reduce.{reduce};
ghost use Rattle.numbers.specs.Tile.{mark_tile};
ghost use Rattle.machine.specs.Geometry.{acc_at};
ghost use Rattle.machine.specs.Faults.{sound};
ghost use Rattle.machine.specs.ArithmeticWords.{is_zero};
ghost use Rattle.machine.specs.Operation.{Operation, times};
ghost use Rattle.unit_settings.specs.Parts.{ours, Ready};
ghost use Rattle.unit_checks.specs.Parts.{MarksReady, AccumulatorFits};
ghost use Rattle.unit_execute.specs.Parts.{WritesRegisters, Permitted, registers_after, tiles_of};

use machine::{Answer, Factor, Machine, Matrix, Sum};
use unit_arithmetic::Tiles;
use unit_checks::written::{check_combine, check_float, check_product, check_scale};
use unit_geometry::{factor_of, tile_of};
use unit_settings::sew_bytes;

// The registers and tiles of a machine.
fn tiles_of(m: Machine) -> Tiles
    requires { Ready m }
    ensures { result ≡ tiles_of m }
{
    Tiles {
        rows: (m.mlen / m.rlen) as usize,
        pitch: (m.rlen / 8) as usize,
        m: m.tile_m as usize,
        k: m.tile_k as usize,
        n: m.tile_n as usize,
    }
}

// Marks the C tile of accumulator r.
fn mark_accumulator(m: Machine, marks: &mut [u8], r: usize, width: usize)
    requires marks_ready { MarksReady m marks.old }
    requires accumulator_fits { AccumulatorFits m r width }
    ensures { marks.new ≡ mark_tile (acc_at (ours m) r) m.tile_m (m.tile_n * width) marks.old }
{
    let c = tile_of(m, Matrix::MatrixC, r);
    unit_tile::mark_tile(marks, c.start, c.pitch, c.rows, c.columns * width);
}

// md += ms1 x ms2, where answers 2 to 5 are Done.
pub fn multiply_tiles(
    m: Machine,
    registers: &mut [u8],
    factor: Factor,
    md: usize,
    ms1: usize,
    ms2: usize,
)
    requires permitted { Permitted m (Operation.multiply (times factor) md ms1 ms2) registers.old }
    requires md_bound { (md < 2) × ((ms1 < 8) × (ms2 < 8)) }
    ensures { registers.new ≡ registers_after m (Operation.multiply (times factor) md ms1 ms2) registers.old }
{
    let f = factor_of(factor);
    let w = sew_bytes(m.mtype);
    unit_arithmetic::multiply_tile(registers, tiles_of(m), f, w, md, ms1, ms2);
}

// Answers 2 to 5, and md += ms1 x ms2. Every byte written was read, so it has its mark already.
pub fn multiply(
    m: Machine,
    registers: &mut [u8],
    marks: &[u8],
    factor: Factor,
    md: usize,
    ms1: usize,
    ms2: usize,
) -> Answer
    requires marks_value { sound m registers.old marks.now ≡ true }
    requires md_bound { (md < 2) × ((ms1 < 8) × (ms2 < 8)) }
    ensures { WritesRegisters m (Operation.multiply (times factor) md ms1 ms2) registers.old marks.now [] result registers.new marks.now }
{
    check_product(m, marks, factor, md, ms1, ms2)?;
    multiply_tiles(m, registers, factor, md, ms1, ms2);
    Ok(())
}

// Answers 2 to 5, and the sum or difference. Every byte written was read, so it has its mark already.
pub fn combine(
    m: Machine,
    registers: &mut [u8],
    marks: &[u8],
    sum: Sum,
    factor: Factor,
    md: usize,
    ms1: usize,
) -> Answer
    requires marks_value { sound m registers.old marks.now ≡ true }
    requires md_bound { (md < 2) × (ms1 < 2) }
    ensures { WritesRegisters m (Operation.combine sum (times factor) md ms1) registers.old marks.now [] result registers.new marks.now }
{
    check_combine(m, marks, factor, md, ms1)?;
    let f = factor_of(factor);
    let w = sew_bytes(m.mtype);
    unit_arithmetic::combine_tile(registers, tiles_of(m), sum, f, w, md, ms1);
    Ok(())
}

// Answers 2 to 5, and md = ms1 times a number of which multiplier is the residue at 64 bits.
pub fn scale(
    m: Machine,
    registers: &mut [u8],
    marks: &mut [u8],
    factor: Factor,
    md: usize,
    ms1: usize,
    multiplier: u64,
) -> Answer
    requires marks_value { sound m registers.old marks.old ≡ true }
    requires md_bound { (md < 2) × (ms1 < 2) }
    ensures { (z : ℤ) → reduce (2 ^ 64) z ≡ multiplier → is_zero z ≡ eqb multiplier 0
        → WritesRegisters m (Operation.scale (times factor) md ms1 z) registers.old marks.old [] result registers.new marks.new }
{
    check_scale(m, marks, factor, ms1, multiplier == 0)?;
    let f = factor_of(factor);
    let w = sew_bytes(m.mtype);
    unit_arithmetic::scale_tile(registers, tiles_of(m), f, w, md, ms1, multiplier);
    mark_accumulator(m, marks, md, f * w);
    Ok(())
}

// md += ms1 x ms2 of binary32 elements, where answers 2 to 5 are Done.
pub fn multiply_floats(m: Machine, registers: &mut [u8], md: usize, ms1: usize, ms2: usize)
    requires permitted { Permitted m (Operation.float_multiply md ms1 ms2) registers.old }
    requires md_bound { (md < 2) × ((ms1 < 8) × (ms2 < 8)) }
    ensures { registers.new ≡ registers_after m (Operation.float_multiply md ms1 ms2) registers.old }
{
    unit_floats::multiply_tile(registers, tiles_of(m), md, ms1, ms2);
}

// Answers 2 to 5, and md += ms1 x ms2 of binary32 elements. Every byte written was read, so it has its mark already.
pub fn float_multiply(
    m: Machine,
    registers: &mut [u8],
    marks: &[u8],
    md: usize,
    ms1: usize,
    ms2: usize,
) -> Answer
    requires marks_value { sound m registers.old marks.now ≡ true }
    requires md_bound { (md < 2) × ((ms1 < 8) × (ms2 < 8)) }
    ensures { WritesRegisters m (Operation.float_multiply md ms1 ms2) registers.old marks.now [] result registers.new marks.now }
{
    check_float(m, marks, md, ms1, ms2)?;
    multiply_floats(m, registers, md, ms1, ms2);
    Ok(())
}
