// Tiles between memory and the registers, their marks, and the checks on them. Row i of a tile starts in the registers at
// start + i * pitch, and in memory at base + i * stride, where the stride is the signed number of its 64 bits.
#![tactic(auto)]

ghost use Rattle.std.specs.Prelude.{◌≡◌, ◌+◌, ◌*◌, ◌^◌, ◌<◌, ◌≤◌, true, false, [], ◌∷◌, length};
ghost use Rattle.numbers.specs.Tile.{put_tile, mark_tile};
ghost use Rattle.machine.specs.Geometry.{sealed};
ghost use Rattle.machine.specs.Faults.{seals_fit};
ghost use Rattle.unit_ranges.specs.Ranges.{seals_in};
ghost use Rattle.machine.specs.Memory.{row_at, inside};
ghost use Rattle.machine.specs.Operation.{element};
ghost use Rattle.machine.specs.Refusals.{marked, needs};
ghost use Rattle.machine.specs.declared.Refusal.TheVariants.{OutsideMemory};
ghost use Rattle.machine.specs.Answers.{verdict};
ghost use Rattle.unit_tile.specs.Checks.{RowsIn, store_checks};

use machine::{Answer, Refusal};
use unit_address::{as_signed, row_address, rows_distinct, rows_inside};
use unit_ranges::rows_unsealed;
use unit_row::{line_marked, mark_row, row_marked, write_row};

// A tile and where it lies: start, its first byte in the registers, and pitch, the bytes from one row to the next there; base, its
// first byte in memory, and stride, the signed number of bytes from one row to the next there; its rows and columns, and the bytes of
// an element.
#[derive(Clone, Copy)]
pub struct Transfer {
    pub start: usize,
    pub pitch: usize,
    pub base: u64,
    pub stride: u64,
    pub rows: usize,
    pub columns: usize,
    pub width: usize,
}

// Whether each byte of the rows, of n bytes each, has its mark.
fn tile_marked(marks: &[u8], start: usize, pitch: usize, rows: usize, n: usize) -> bool
    requires { RowsIn start pitch rows n (length marks.now) }
    ensures { result ≡ marked marks.now (λ i. start + i * pitch) rows n }
{
    for i in 0..rows {
        if !line_marked(marks, start + i * pitch, n) {
            return false;
        }
    }
    true
}

// The answer of the check of a tile's marks: Done, or the first element with a byte without a mark, row by row: there both loops are
// left, by label.
pub fn first_unmarked(
    marks: &[u8],
    start: usize,
    pitch: usize,
    rows: usize,
    cols: usize,
    w: usize,
) -> Answer
    requires rows_in { RowsIn start pitch rows (cols * w) (length marks.now) }
    requires w_bound { cols * w ≤ pitch }
    ensures { result ≡ verdict (needs false marks.now (λ i. start + i * pitch) rows cols w ∷ []) }
{
    if tile_marked(marks, start, pitch, rows, cols * w) {
        return Ok(());
    }
    let mut found = Ok(());
    'tile: for i in 0..rows {
        let first = start + i * pitch;
        for j in 0..cols {
            if !row_marked(marks, first + j * w, w) {
                found = Err(Refusal::Unwritten {
                    row: i as u64,
                    column: j as u64,
                });
                break 'tile;
            }
        }
    }
    found
}

// Marks the rows of n bytes: as one row where each starts at the end of the one before.
pub fn mark_tile(marks: &mut [u8], start: usize, pitch: usize, rows: usize, n: usize)
    requires { RowsIn start pitch rows n (length marks.old) }
    ensures { marks.new ≡ mark_tile (λ i. start + i * pitch) rows n marks.old }
{
    if n == pitch {
        mark_row(&mut marks[start..], rows * n);
        return;
    }
    for i in 0..rows {
        let to = start + i * pitch;
        mark_row(&mut marks[to..], n);
    }
}

// Copies the rows of a tile that lie in memory to the registers.
pub fn load_tile(registers: &mut [u8], memory: &[u8], t: Transfer)
    requires pitch_in_bounds { t.start + t.rows * t.pitch ≤ length registers.old }
    requires width_bound { t.columns * t.width ≤ t.pitch }
    requires width_value { inside (length memory.now) t.base t.stride t.rows (t.columns * t.width) ≡ true }
    ensures { registers.new ≡ put_tile (λ i. t.start + i * t.pitch) t.rows t.columns t.width (element memory.now (row_at t.base t.stride) t.width) registers.old }
{
    let bytes = t.columns * t.width;
    if bytes == 0 {
        return;
    }
    for i in 0..t.rows {
        let to = t.start + i * t.pitch;
        let from = row_address(t.base as usize, as_signed(t.stride), i);
        write_row(&mut registers[to..], &memory[from..from + bytes]);
    }
}

// Copies the rows of a tile from the registers to where they lie in memory, upward.
pub fn store_tile(memory: &mut [u8], registers: &[u8], t: Transfer)
    requires pitch_in_bounds { t.start + t.rows * t.pitch ≤ length registers.now }
    requires width_bound { t.columns * t.width ≤ t.pitch }
    requires width_value { inside (length memory.old) t.base t.stride t.rows (t.columns * t.width) ≡ true }
    ensures { memory.new ≡ put_tile (row_at t.base t.stride) t.rows t.columns t.width (element registers.now (λ i. t.start + i * t.pitch) t.width) memory.old }
{
    let bytes = t.columns * t.width;
    if bytes == 0 {
        return;
    }
    for i in 0..t.rows {
        let to = row_address(t.base as usize, as_signed(t.stride), i);
        let from = t.start + i * t.pitch;
        write_row(&mut memory[to..], &registers[from..from + bytes]);
    }
}

// The checks of a store to a memory of len bytes, in lines of so many bytes each: answer 5, 6, 13, 7 or Done.
pub fn store_checked(
    marks: &[u8],
    len: usize,
    seals: &[u8],
    t: Transfer,
    lines: usize,
    bytes: usize,
) -> Answer
    requires pitch_in_bounds { t.start + t.rows * t.pitch ≤ length marks.now }
    requires width_bound { t.columns * t.width ≤ t.pitch }
    requires len_bound { len < 2 ^ 63 }
    requires bytes_bound { lines * bytes < 2 ^ 63 }
    requires seals_value { seals_fit (seals_in seals.now) ≡ true }
    ensures { result ≡ verdict (store_checks (sealed (seals_in seals.now)) marks.now t.start t.pitch len t.base t.stride t.rows t.columns t.width lines bytes) }
{
    let at = t.base as usize;
    first_unmarked(marks, t.start, t.pitch, t.rows, t.columns, t.width)?;
    if !rows_inside(len, at, t.stride, lines, bytes) {
        return Err(Refusal::OutsideMemory);
    }
    if !rows_distinct(len, at, t.stride, lines, bytes) {
        return Err(Refusal::RowsOverlap);
    }
    if !rows_unsealed(len, seals, at, t.stride, lines, bytes) {
        return Err(Refusal::SealedByte);
    }
    Ok(())
}
