// Loads and stores of a tile, plain or transposed. Row i of a tile starts in the registers at start + i * pitch. In memory its rows lie
// one stride apart from base on; in the transposed form they are the columns of the register.
#![tactic(auto)]

ghost use Rattle.std.specs.Prelude.{◌≡◌, ◌+◌, ◌*◌, ◌<◌, ◌≤◌, true, [], ◌∷◌, length, if◌then◌else◌};
ghost use Rattle.numbers.specs.Tile.{get_le, put_le, put_row, put_tile, mark_tile};
ghost use Rattle.machine.specs.Geometry.{sealed};
ghost use Rattle.machine.specs.Faults.{seals_fit};
ghost use Rattle.unit_ranges.specs.Ranges.{seals_in};
ghost use Rattle.machine.specs.Memory.{row_at, inside};
ghost use Rattle.machine.specs.Operation.{element, placed, memory_rows, memory_cols};
ghost use Rattle.machine.specs.declared.Refusal.TheVariants.{OutsideMemory};
ghost use Rattle.machine.specs.declared.Form.TheVariants.{Transposed};
ghost use Rattle.machine.specs.Answers.{verdict, is_done, ◌otherwise◌};
ghost use Rattle.unit_element.specs.Element.{Width};
ghost use Rattle.unit_tile.specs.Checks.{store_checks};

use machine::{Answer, Form, Refusal};
use unit_address::{as_signed, row_address, rows_inside};
use unit_element::Element;
use unit_tile::{Transfer, load_tile, mark_tile, store_checked, store_tile};

// Copies one element of w bytes.
pub fn copy_element(dst: &mut [u8], src: &[u8], to: usize, from: usize, w: usize)
    requires width { Width w }
    requires w_in_bounds { to + w ≤ length dst.old }
    requires w_in_bounds_2 { from + w ≤ length src.now }
    ensures { dst.new ≡ put_le to w (get_le src.now from w) dst.old }
{
    match w {
        1 => u8::write(dst, to, u8::read(src, from)),
        2 => u16::write(dst, to, u16::read(src, from)),
        4 => u32::write(dst, to, u32::read(src, from)),
        _ => u64::write(dst, to, u64::read(src, from)),
    }
}

// Copies n elements that lie one stride apart in src to the front of dst, one after another. The stride is signed, so the next is
// found by a sum that wraps; the one after the last is not used.
fn gather(dst: &mut [u8], src: &[u8], base: u64, stride: u64, n: usize, w: usize)
    requires width { Width w }
    requires w_in_bounds { n * w ≤ length dst.old }
    requires w_value { inside (length src.now) base stride n w ≡ true }
    ensures { dst.new ≡ put_row 0 n w (λ j. get_le src.now (row_at base stride j) w) dst.old }
{
    let mut from = base;
    for j in 0..n {
        copy_element(dst, src, j * w, from as usize, w);
        from = std::num::wrapping_add_u64(from, stride);
    }
}

// Copies a tile that lies in memory column by column to the registers.
fn gather_tile(registers: &mut [u8], memory: &[u8], t: Transfer)
    requires pitch_in_bounds { t.start + t.rows * t.pitch ≤ length registers.old }
    requires width_bound { t.columns * t.width ≤ t.pitch }
    requires width { Width t.width }
    requires width_value { inside (length memory.now) t.base t.stride t.columns (t.rows * t.width) ≡ true }
    ensures { registers.new ≡ put_tile (λ i. t.start + i * t.pitch) t.rows t.columns t.width (placed Transposed (element memory.now (row_at t.base t.stride) t.width)) registers.old }
{
    if t.columns == 0 {
        return;
    }
    for i in 0..t.rows {
        let to = t.start + i * t.pitch;
        let from = t.base + (i * t.width) as u64;
        gather(
            &mut registers[to..],
            memory,
            from,
            t.stride,
            t.columns,
            t.width,
        );
    }
}

// Copies the columns of a tile in the registers to rows in memory, upward.
fn scatter_tile(memory: &mut [u8], registers: &[u8], t: Transfer)
    requires pitch_in_bounds { t.start + t.rows * t.pitch ≤ length registers.now }
    requires width_bound { t.columns * t.width ≤ t.pitch }
    requires width { Width t.width }
    requires width_value { inside (length memory.old) t.base t.stride t.columns (t.rows * t.width) ≡ true }
    ensures { memory.new ≡ put_tile (row_at t.base t.stride) t.columns t.rows t.width (placed Transposed (element registers.now (λ i. t.start + i * t.pitch) t.width)) memory.old }
{
    if t.rows == 0 {
        return;
    }
    for j in 0..t.columns {
        let to = row_address(t.base as usize, as_signed(t.stride), j);
        let from = t.start + j * t.width;
        gather(
            &mut memory[to..],
            registers,
            from as u64,
            t.pitch as u64,
            t.rows,
            t.width,
        );
    }
}

// How many rows of memory a tile takes.
fn memory_rows(form: Form, rows: usize, cols: usize) -> usize
    ensures { result ≡ memory_rows form rows cols }
{
    match form {
        Form::Plain => rows,
        Form::Transposed => cols,
    }
}

// How many elements each of them has.
fn memory_columns(form: Form, rows: usize, cols: usize) -> usize
    ensures { result ≡ memory_cols form rows cols }
{
    match form {
        Form::Plain => cols,
        Form::Transposed => rows,
    }
}

// Copies a tile in memory to the registers.
fn copy_in(form: Form, registers: &mut [u8], memory: &[u8], t: Transfer)
    requires pitch_in_bounds { t.start + t.rows * t.pitch ≤ length registers.old }
    requires width_bound { t.columns * t.width ≤ t.pitch }
    requires width { Width t.width }
    requires width_value { inside (length memory.now) t.base t.stride (memory_rows form t.rows t.columns) (memory_cols form t.rows t.columns * t.width) ≡ true }
    ensures { registers.new ≡ put_tile (λ i. t.start + i * t.pitch) t.rows t.columns t.width (placed form (element memory.now (row_at t.base t.stride) t.width)) registers.old }
{
    match form {
        Form::Plain => {
            load_tile(registers, memory, t);
        }
        Form::Transposed => {
            gather_tile(registers, memory, t);
        }
    }
}

// Copies a tile in the registers to memory.
fn copy_out(form: Form, memory: &mut [u8], registers: &[u8], t: Transfer)
    requires pitch_in_bounds { t.start + t.rows * t.pitch ≤ length registers.now }
    requires width_bound { t.columns * t.width ≤ t.pitch }
    requires width { Width t.width }
    requires width_value { inside (length memory.old) t.base t.stride (memory_rows form t.rows t.columns) (memory_cols form t.rows t.columns * t.width) ≡ true }
    ensures { memory.new ≡ put_tile (row_at t.base t.stride) (memory_rows form t.rows t.columns) (memory_cols form t.rows t.columns) t.width (placed form (element registers.now (λ i. t.start + i * t.pitch) t.width)) memory.old }
{
    match form {
        Form::Plain => {
            store_tile(memory, registers, t);
        }
        Form::Transposed => {
            scatter_tile(memory, registers, t);
        }
    }
}

// Loads a tile and marks it, or answers 6.
pub fn load(
    form: Form,
    registers: &mut [u8],
    marks: &mut [u8],
    memory: &[u8],
    t: Transfer,
) -> Answer
    requires pitch_in_bounds { t.start + t.rows * t.pitch ≤ length registers.old }
    requires marks_len { length marks.old ≡ length registers.old }
    requires width_bound { t.columns * t.width ≤ t.pitch }
    requires width { Width t.width }
    requires width_le_pitch { t.width ≤ t.pitch }
    ensures value { result ≡ verdict ((inside (length memory.now) t.base t.stride (memory_rows form t.rows t.columns) (memory_cols form t.rows t.columns * t.width) otherwise OutsideMemory) ∷ []) }
    ensures registers_after { registers.new ≡ (if is_done result then put_tile (λ i. t.start + i * t.pitch) t.rows t.columns t.width (placed form (element memory.now (row_at t.base t.stride) t.width)) registers.old else registers.old) }
    ensures marks_after { marks.new ≡ (if is_done result then mark_tile (λ i. t.start + i * t.pitch) t.rows (t.columns * t.width) marks.old else marks.old) }
{
    let lines = memory_rows(form, t.rows, t.columns);
    let bytes = memory_columns(form, t.rows, t.columns) * t.width;
    let len = memory.len();
    if !rows_inside(len, t.base as usize, t.stride, lines, bytes) {
        return Err(Refusal::OutsideMemory);
    }
    copy_in(form, registers, memory, t);
    mark_tile(marks, t.start, t.pitch, t.rows, t.columns * t.width);
    Ok(())
}

// Stores a tile, or answers 5, 6, 13 or 7.
pub fn store(
    form: Form,
    registers: &[u8],
    marks: &[u8],
    memory: &mut [u8],
    seals: &[u8],
    t: Transfer,
) -> Answer
    requires pitch_in_bounds { t.start + t.rows * t.pitch ≤ length registers.now }
    requires marks_len { length marks.now ≡ length registers.now }
    requires width_bound { t.columns * t.width ≤ t.pitch }
    requires width { Width t.width }
    requires width_le_pitch { t.width ≤ t.pitch }
    requires seals_value { seals_fit (seals_in seals.now) ≡ true }
    ensures value { result ≡ verdict (store_checks (sealed (seals_in seals.now)) marks.now t.start t.pitch (length memory.old) t.base t.stride t.rows t.columns t.width (memory_rows form t.rows t.columns) (memory_cols form t.rows t.columns * t.width)) }
    ensures memory_after { memory.new ≡ (if is_done result then put_tile (row_at t.base t.stride) (memory_rows form t.rows t.columns) (memory_cols form t.rows t.columns) t.width (placed form (element registers.now (λ i. t.start + i * t.pitch) t.width)) memory.old else memory.old) }
{
    let lines = memory_rows(form, t.rows, t.columns);
    let bytes = memory_columns(form, t.rows, t.columns) * t.width;
    store_checked(marks, memory.len(), seals, t, lines, bytes)?;
    copy_out(form, memory, registers, t);
    Ok(())
}
