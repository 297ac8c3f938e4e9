// Moves of slices between accumulators and vector registers, in a state that is not at fault: answers 2, 4 and 5, and the move.
// Rows lie in the vector registers as they do in the accumulator (plain), columns as rows (transposed).
#![tactic(auto)]

ghost use Rattle.std.specs.Prelude.{◌≡◌, true, [], ◌∷◌, ◌+◌, ◌*◌, ◌^◌, ◌≤◌, ◌<◌, length, leb};
ghost use Rattle.numbers.specs.Tile.{get_le, put_row, put_tile};
ghost use Rattle.machine.specs.declared.Form.TheVariants.{Transposed};
ghost use Rattle.machine.specs.Answers.{verdict};
ghost use Rattle.machine.specs.Geometry.{state_of};
ghost use Rattle.machine.specs.Vectors.{vectors_of, vector_bytes, file_bytes, vectors_fit};
ghost use Rattle.machine.specs.Faults.{sound};
ghost use Rattle.machine.specs.Operation.{Operation, element, placed, memory_rows, memory_cols};
ghost use Rattle.machine.specs.MoveWords.{lines_of, line_of, corner_of, slice_fits, slice_needs, unwritten_in};
ghost use Rattle.unit_settings.specs.Parts.{ours, Ready};
ghost use Rattle.unit_element.specs.Element.{Width};
ghost use Rattle.unit_tile.specs.Checks.{RowsIn};
ghost use Rattle.unit_moves.specs.Parts.{slice_placed, moved, MovesOut, MovesIn, Moves};

use machine::{Answer, Dimension, Form, Machine, Matrix, Refusal};
use unit_geometry::{Placed, tile_of};
use unit_row::write_row;
use unit_settings::{fits, is_mill, sew_bytes};
use unit_transfer::copy_element;

// How many rows or columns the C tile has.
fn lines_of(m: Machine, form: Form) -> u64
    ensures { result ≡ lines_of form (state_of m [] []) }
{
    match form {
        Form::Plain => m.tile_m,
        Form::Transposed => m.tile_n,
    }
}

// The elements of one of them.
fn line_of(m: Machine, form: Form) -> u64
    ensures { result ≡ line_of form (state_of m [] []) }
{
    match form {
        Form::Plain => m.tile_n,
        Form::Transposed => m.tile_m,
    }
}

// Whether as many lines from the first on are among these.
fn lies_in(first: u64, count: u64, lines: u64) -> bool
    ensures { result ≡ leb (first + count) lines }
{
    if count > lines {
        return false;
    }
    first <= lines - count
}

// Whether a line of elements of w bytes fits into a vector register.
fn fits_register(line: u64, w: u64) -> bool
    requires { (0 < w) × (w ≤ 8) }
    ensures { result ≡ leb (line * w) vector_bytes }
{
    if line > 16 {
        return false;
    }
    line * w <= 16
}

// Answers 2 and 4 of a move.
fn check_slice(m: Machine, form: Form, first: u64, count: u64) -> Answer
    requires { Ready m }
    ensures { result ≡ verdict (slice_fits (ours m) form first count (state_of m [] [])) }
{
    if is_mill(m.mtype) {
        return Err(Refusal::IllegalType);
    }
    if !fits(m, Dimension::DimensionM) {
        return Err(Refusal::TileTooLarge);
    }
    if !fits(m, Dimension::DimensionN) {
        return Err(Refusal::TileTooLarge);
    }
    if !lies_in(first, count, lines_of(m, form)) {
        return Err(Refusal::TileTooLarge);
    }
    if !fits_register(line_of(m, form), sew_bytes(m.mtype) as u64) {
        return Err(Refusal::TileTooLarge);
    }
    Ok(())
}

// The slice of accumulator r: as many rows or columns from the first on, of elements of w bytes.
fn slice_of(m: Machine, form: Form, r: usize, first: usize, count: usize, w: usize) -> Placed
    requires ready { Ready m }
    requires r_bound { r < 2 }
    requires w_bound { corner_of (ours m) form r first w < 2 ^ 64 }
    ensures { result ≡ slice_placed m form r first count w }
{
    let c = tile_of(m, Matrix::MatrixC, r);
    match form {
        Form::Plain => Placed {
            start: c.start + first * c.pitch,
            pitch: c.pitch,
            rows: count,
            columns: c.columns,
        },
        Form::Transposed => Placed {
            start: c.start + first * w,
            pitch: c.pitch,
            rows: c.rows,
            columns: count,
        },
    }
}

// Answer 5 with row and column of the accumulator, from those of the slice.
fn unwritten_in(form: Form, first: u64, row: u64, column: u64) -> Refusal
    requires { (first + row < 2 ^ 64) × (first + column < 2 ^ 64) }
    ensures { result ≡ unwritten_in form first row column }
{
    match form {
        Form::Plain => Refusal::Unwritten {
            row: first + row,
            column: column,
        },
        Form::Transposed => Refusal::Unwritten {
            row: row,
            column: first + column,
        },
    }
}

// Answer 5 of a slice.
fn slice_marks(marks: &[u8], form: Form, first: u64, p: Placed, w: usize) -> Answer
    requires rows_in { RowsIn p.start p.pitch p.rows (p.columns * w) (length marks.now) }
    requires w_bound { p.columns * w ≤ p.pitch }
    requires rows_bound { (first + p.rows < 2 ^ 64) × (first + p.columns < 2 ^ 64) }
    ensures { result ≡ verdict (slice_needs form first marks.now (λ i. p.start + i * p.pitch) p.rows p.columns w ∷ []) }
{
    let found = unit_tile::first_unmarked(marks, p.start, p.pitch, p.rows, p.columns, w);
    match found {
        Ok(()) => Ok(()),
        Err(_) => {
            let named = unit_answers::reply_of(found);
            Err(unwritten_in(form, first, named.row, named.column))
        }
    }
}

// The rows that a slice is copied from: where the first starts, and the bytes from row to row.
#[derive(Clone, Copy)]
struct Source {
    start: usize,
    pitch: usize,
}

// Copies rows of elements of w bytes.
fn copy_rows(dst: &mut [u8], src: &[u8], to: Placed, from: Source, w: usize)
    requires rows_in { RowsIn to.start to.pitch to.rows (to.columns * w) (length dst.old) }
    requires rows_in_2 { RowsIn from.start from.pitch to.rows (to.columns * w) (length src.now) }
    requires w_bound { to.columns * w ≤ to.pitch }
    ensures { dst.new ≡ put_tile (λ i. to.start + i * to.pitch) to.rows to.columns w (element src.now (λ i. from.start + i * from.pitch) w) dst.old }
{
    let bytes = to.columns * w;
    for i in 0..to.rows {
        let at = to.start + i * to.pitch;
        let start = from.start + i * from.pitch;
        write_row(&mut dst[at..], &src[start..start + bytes]);
    }
}

// Copies n elements, one of each row, to places one after another.
fn copy_column(dst: &mut [u8], src: &[u8], to: usize, from: Source, n: usize, w: usize)
    requires width { Width w }
    requires w_in_bounds { to + n * w ≤ length dst.old }
    requires rows_in { RowsIn from.start from.pitch n w (length src.now) }
    ensures { dst.new ≡ put_row to n w (λ j. get_le src.now (from.start + j * from.pitch) w) dst.old }
{
    for j in 0..n {
        copy_element(dst, src, to + j * w, from.start + j * from.pitch, w);
    }
}

// Copies columns of elements of w bytes to rows.
fn copy_columns(dst: &mut [u8], src: &[u8], to: Placed, from: Source, w: usize)
    requires rows_in { RowsIn to.start to.pitch to.rows (to.columns * w) (length dst.old) }
    requires rows_in_2 { RowsIn from.start from.pitch to.columns (to.rows * w) (length src.now) }
    requires width { Width w }
    ensures { dst.new ≡ put_tile (λ i. to.start + i * to.pitch) to.rows to.columns w (placed Transposed (element src.now (λ i. from.start + i * from.pitch) w)) dst.old }
{
    if to.columns == 0 {
        return;
    }
    for i in 0..to.rows {
        let column = Source {
            start: from.start + i * w,
            pitch: from.pitch,
        };
        copy_column(dst, src, to.start + i * to.pitch, column, to.columns, w);
    }
}

// Copies a slice: element (i, j) of the rows in dst is element (i, j), or in the transposed form (j, i), of those in src.
fn copy_slice(form: Form, dst: &mut [u8], src: &[u8], to: Placed, from: Source, w: usize)
    requires rows_in { RowsIn to.start to.pitch to.rows (to.columns * w) (length dst.old) }
    requires rows_in_2 { RowsIn from.start from.pitch (memory_rows form to.rows to.columns) (memory_cols form to.rows to.columns * w) (length src.now) }
    requires w_bound { to.columns * w ≤ to.pitch }
    requires width { Width w }
    ensures { dst.new ≡ put_tile (λ i. to.start + i * to.pitch) to.rows to.columns w (placed form (element src.now (λ i. from.start + i * from.pitch) w)) dst.old }
{
    match form {
        Form::Plain => {
            copy_rows(dst, src, to, from, w);
        }
        Form::Transposed => {
            copy_columns(dst, src, to, from, w);
        }
    }
}

// Answers 2, 4 and 5, and as many rows or columns of ms1, from the first on, to the registers from vd on.
fn slice_out(
    m: Machine,
    registers: &[u8],
    marks: &[u8],
    vectors: &mut [u8],
    form: Form,
    vd: usize,
    ms1: usize,
    first: u64,
    count: u64,
) -> Answer
    requires marks_value { sound m registers.now marks.now ≡ true }
    requires vectors_len { length vectors.old ≡ file_bytes }
    requires ms1_bound { (ms1 < 2) × ((vd + count ≤ 32) × (count ≤ 8)) }
    ensures { MovesOut m (Operation.move_out form ms1 vd first count) registers.now marks.now vectors.old result vectors.new }
{
    check_slice(m, form, first, count)?;
    let w = sew_bytes(m.mtype);
    let p = slice_of(m, form, ms1, first as usize, count as usize, w);
    slice_marks(marks, form, first, p, w)?;
    let line = line_of(m, form) as usize;
    let to = Placed {
        start: vd * 16,
        pitch: 16,
        rows: count as usize,
        columns: line,
    };
    let from = Source {
        start: p.start,
        pitch: p.pitch,
    };
    copy_slice(form, vectors, registers, to, from, w);
    Ok(())
}

// Answers 2 and 4, and the registers from vs1 on to as many rows or columns of md, from the first on.
fn slice_in(
    m: Machine,
    registers: &mut [u8],
    marks: &mut [u8],
    vectors: &[u8],
    form: Form,
    md: usize,
    vs1: usize,
    first: u64,
    count: u64,
) -> Answer
    requires marks_value { sound m registers.old marks.old ≡ true }
    requires vectors_len { length vectors.now ≡ file_bytes }
    requires md_bound { (md < 2) × ((vs1 + count ≤ 32) × (count ≤ 8)) }
    ensures { MovesIn m (Operation.move_in form md vs1 first count vectors.now) registers.old marks.old result registers.new marks.new }
{
    check_slice(m, form, first, count)?;
    let w = sew_bytes(m.mtype);
    let p = slice_of(m, form, md, first as usize, count as usize, w);
    let from = Source {
        start: vs1 * 16,
        pitch: 16,
    };
    copy_slice(form, registers, vectors, p, from, w);
    unit_tile::mark_tile(marks, p.start, p.pitch, p.rows, p.columns * w);
    Ok(())
}

// Answers 12, 2, 4 and 5, and a slice of accumulator r moved to the group from register v on, or in from there. With two callers, one
// for each way, it stays a function of its own in the compiled step, and no other word is slower for it.
pub fn move_slice(
    m: Machine,
    registers: &mut [u8],
    marks: &mut [u8],
    vectors: &mut [u8],
    group: u64,
    inward: bool,
    form: Form,
    r: usize,
    v: usize,
    first: u64,
) -> Answer
    requires marks_value { sound m registers.old marks.old ≡ true }
    requires group_value { vectors_fit (vectors_of vectors.old group) ≡ true }
    requires r_bound { (r < 2) × (v < 32) }
    ensures { Moves m (moved inward (vectors_of vectors.old group) form r v first) registers.old marks.old vectors.old result registers.new marks.new vectors.new }
{
    if v as u64 % group != 0 {
        return Err(Refusal::WrongRegister);
    }
    if inward {
        return slice_in(m, registers, marks, vectors, form, r, v, first, group);
    }
    slice_out(m, registers, marks, vectors, form, v, r, first, group)
}
