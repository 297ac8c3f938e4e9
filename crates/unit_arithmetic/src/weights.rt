// Weighted sums of two accumulators, which serve every element-wise instruction.
ghost use Rattle.std.specs.Prelude.{◌≡◌, ◌+◌, ◌*◌, ◌%◌, ◌^◌, ◌≤◌, ◌<◌, length};
ghost use Rattle.numbers.specs.Reduce.{signed};
ghost use Rattle.numbers.specs.Tile.{put_row};
ghost use Rattle.numbers.specs.Bounds.{most_pitch, most_columns};
ghost use Rattle.unit_element.specs.Element.{Width};
ghost use Rattle.unit_sums.specs.Rows.{weighted_row};
ghost use Rattle.unit_arithmetic.specs.Products.{Widths};
ghost use Rattle.unit_arithmetic.specs.Tiles.{shape_of, Registers};
ghost use Rattle.unit_arithmetic.specs.Weights.{weight_d, weight_a, weighed, weighted_tile, Aligned};

use super::Tiles;
use machine::Sum;
use unit_element::{COLUMNS, Element};

// An element of wide bytes becomes x times itself plus y times one of width bytes; both are residues at 64 bits.
#[derive(Clone, Copy)]
pub struct Weights {
    pub width: usize,
    pub wide: usize,
    pub x: u64,
    pub y: u64,
}

// The weights of a sum or difference.
pub fn weights_of(sum: Sum, width: usize, wide: usize) -> Weights
    requires { Width wide }
    ensures widths { (result.width ≡ width) × (result.wide ≡ wide) }
    ensures weights { (signed (256 ^ wide) (result.x % 256 ^ wide) ≡ weight_d sum) × (signed (256 ^ wide) (result.y % 256 ^ wide) ≡ weight_a sum) }
{
    // Minus 1 as a residue at 64 bits.
    let minus = 0xffff_ffff_ffff_ffff;
    let (x, y) = match sum {
        Sum::Add => (1, 1),
        Sum::Subtract => (1, minus),
        Sum::ReverseSubtract => (minus, 1),
    };
    Weights { width, wide, x, y }
}

// At most COLUMNS columns of the row at `to` become x times themselves plus y times those of the row at `from`, with sums of the type E.
fn weigh<E: Element>(s: &mut [u8], from: usize, to: usize, n: usize, w: Weights)
    requires n_le_most_columns { n ≤ most_columns }
    requires width { (Width w.width) × (w.width ≤ E.BYTES) }
    requires width_in_bounds { (from + n * w.width ≤ length s.old) × (to + n * E.BYTES ≤ length s.old) }
    ensures { s.new ≡ put_row to n E.BYTES (weighted_row s.old from to w.width E.BYTES (w.x % 256 ^ E.BYTES) (w.y % 256 ^ E.BYTES)) s.old }
{
    unit_sums::weigh_row(s, from, to, w.width, n, E::low(w.x), E::low(w.y));
}

// The same, with sums at the output's width.
fn weigh_block(s: &mut [u8], from: usize, to: usize, n: usize, w: Weights)
    requires n_le_most_columns { n ≤ most_columns }
    requires widths { Widths w.width w.wide }
    requires width_in_bounds { (from + n * w.width ≤ length s.old) × (to + n * w.wide ≤ length s.old) }
    ensures { s.new ≡ put_row to n w.wide (weighed w s.old from to) s.old }
{
    match w.wide {
        1 => weigh::<u8>(s, from, to, n, w),
        2 => weigh::<u16>(s, from, to, n, w),
        4 => weigh::<u32>(s, from, to, n, w),
        _ => weigh::<u64>(s, from, to, n, w),
    }
}

// All columns of the row, in blocks from the last one on: where the two rows are one, no block writes what one before it reads.
fn weigh_row(s: &mut [u8], from: usize, to: usize, n: usize, w: Weights)
    requires widths { Widths w.width w.wide }
    requires width_in_bounds { (from + n * w.width ≤ length s.old) × (to + n * w.wide ≤ length s.old) }
    requires aligned { Aligned from to (n * w.width) (n * w.wide) }
    ensures { s.new ≡ put_row to n w.wide (weighed w s.old from to) s.old }
{
    // A while: by a for over the numbers of the blocks, from the last on, an instruction takes 1.15 times as long.
    let mut j = n;
    while j > 0 {
        let columns = COLUMNS.min(j);
        j -= columns;
        weigh_block(s, from + j * w.width, to + j * w.wide, columns, w);
    }
}

// Accumulator d becomes x times itself plus y times accumulator a.
pub fn weigh_tile(registers: &mut [u8], t: Tiles, d: usize, a: usize, w: Weights)
    requires d_bound { (d < 2) × (a < 2) }
    requires registers { Registers t (length registers.old) }
    requires widths { Widths w.width w.wide }
    requires m_le_rows { (t.m ≤ t.rows) × ((t.n ≤ most_pitch) × ((t.n * w.width ≤ 4 * t.pitch) × (t.n * w.wide ≤ 4 * t.pitch))) }
    ensures { registers.new ≡ weighted_tile (shape_of t) w.wide w.width d a (w.x % 256 ^ w.wide) (w.y % 256 ^ w.wide) t.m t.n registers.old }
{
    let size = t.rows * t.pitch;
    let from = (8 + 4 * a) * size;
    let to = (8 + 4 * d) * size;
    for i in 0..t.m {
        let row = i * (4 * t.pitch);
        weigh_row(registers, from + row, to + row, t.n, w);
    }
}
