// The effect of multiply, add, subtract, reverse subtract and multiply by a number on the register bytes.
// An element of the output has 1, 2, 4 or 8 bytes, and its sums are kept at that width, or at 16 bits for 8: crates unit_sums, unit_pairs, unit_lanes16 and unit_lanes32.
#![tactic(auto)]

pub mod product;
mod rows;
mod weights;

ghost use Rattle.std.specs.Prelude.{◌≡◌, ◌*◌, ◌^◌, ◌≤◌, ◌<◌, ℤ, length};
ghost use Rattle.numbers.specs.Reduce.{reduce};
ghost use Rattle.numbers.specs.Bounds.{most_pitch, most_columns, most_size, most_terms};
ghost use Rattle.unit_element.specs.Element.{Width};
ghost use Rattle.unit_arithmetic.specs.Effect.{product_tile, combine_tile, scale_tile};
ghost use Rattle.unit_arithmetic.specs.Products.{Widths, LiesIn, added};
ghost use Rattle.unit_arithmetic.specs.Tiles.{shape_of, Registers, product_of};

use machine::Sum;
use product::Product;
use unit_element::TERMS;
use weights::{Weights, weigh_tile, weights_of};

// The registers have rows of pitch bytes. A tile of A has m rows and k columns, one of B k and n, one of C m and n.
#[derive(Clone, Copy)]
pub struct Tiles {
    pub rows: usize,
    pub pitch: usize,
    pub m: usize,
    pub k: usize,
    pub n: usize,
}

impl Tiles {
    // The product of tile registers a and b for accumulator d.
    pub fn product(self, d: usize, a: usize, b: usize) -> Product
        requires d_bound { (d < 2) × ((a < 8) × (b < 8)) }
        requires size { self.rows * self.pitch ≤ most_size }
        ensures { result ≡ product_of self d a b }
    {
        let size = self.rows * self.pitch;
        Product {
            a: a * size,
            b: b * size,
            c: (8 + 4 * d) * size,
            pitch: self.pitch,
            m: self.m,
            k: self.k,
            n: self.n,
        }
    }
}

// A block of at most COLUMNS columns and TERMS terms, in all rows of C: in pairs where elements of one or two bytes make sums of four, in lanes
// of 16 bits where sums of one or two bytes have 16 columns or more, in lanes of 32 where elements of four bytes have 8 or more, else row by row.
fn multiply_rows(s: &mut [u8], p: Product, width: usize, wide: usize)
    requires n_le_most_columns { (p.n ≤ most_columns) × (p.k ≤ most_terms) }
    requires widths { Widths width wide }
    requires lies_in { LiesIn p width wide (length s.old) }
    ensures { s.new ≡ added p width wide s.old }
{
    if wide == 4 {
        if width != 4 {
            unit_pairs::multiply_rows(s, p.a, p.b, p.c, p.pitch, width, p.m, p.k, p.n);
        } else if 8 <= p.n && p.n <= unit_lanes32::LANES {
            unit_lanes32::multiply_rows(s, p.a, p.b, p.c, p.pitch, p.m, p.k, p.n);
        } else {
            rows::multiply_rows(s, p, width, wide);
        }
    } else if wide <= 2 && 16 <= p.n && p.n <= unit_lanes16::LANES {
        unit_lanes16::multiply_rows(s, p.a, p.b, p.c, p.pitch, width, wide, p.m, p.k, p.n);
    } else {
        rows::multiply_rows(s, p, width, wide);
    }
}

// All terms of at most COLUMNS columns, a block after another; where there is no term, a block of none.
fn multiply_terms(s: &mut [u8], p: Product, width: usize, wide: usize)
    requires n_le_most_columns { p.n ≤ most_columns }
    requires widths { Widths width wide }
    requires lies_in { LiesIn p width wide (length s.old) }
    ensures { s.new ≡ added p width wide s.old }
{
    for l in (0..p.k.max(1)).step_by(TERMS) {
        let terms = TERMS.min(p.k - l);
        multiply_rows(s, p.terms(l, terms, width), width, wide);
    }
}

// The most columns of a block, by what its sums stand in.
fn columns_of(width: usize, wide: usize) -> usize
    ensures { (0 < result) × (result ≤ most_columns) }
{
    match wide {
        1 | 2 => unit_lanes16::LANES,
        4 if width == 4 => unit_lanes32::LANES,
        8 => unit_sums::BLOCK,
        _ => unit_element::COLUMNS,
    }
}

// All columns and terms.
fn multiply_blocks(s: &mut [u8], p: Product, width: usize, wide: usize)
    requires widths { Widths width wide }
    requires lies_in { LiesIn p width wide (length s.old) }
    ensures { s.new ≡ added p width wide s.old }
{
    if p.m == 0 {
        return;
    }
    let most = columns_of(width, wide);
    for j in (0..p.n).step_by(most) {
        let columns = most.min(p.n - j);
        multiply_terms(s, p.columns(j, columns, width, wide), width, wide);
    }
}

// Multiplies tile registers a and b and adds the product to accumulator d.
pub fn multiply_tile(
    registers: &mut [u8],
    t: Tiles,
    factor: usize,
    width: usize,
    d: usize,
    a: usize,
    b: usize,
)
    requires d_bound { (d < 2) × ((a < 8) × (b < 8)) }
    requires registers { Registers t (length registers.old) }
    requires width { Width width }
    requires width_2 { Width (factor * width) }
    requires factor_bound { factor ≤ 4 }
    requires m_le_rows { (t.m ≤ t.rows) × ((t.k ≤ t.rows) × (t.k ≤ most_pitch)) }
    requires n_le_most_pitch { (t.n ≤ most_pitch) × ((t.n * width ≤ t.pitch) × (t.k * width ≤ t.pitch)) }
    ensures { registers.new ≡ product_tile (shape_of t) (factor * width) width d a b t.m t.k t.n registers.old }
{
    multiply_blocks(registers, t.product(d, a, b), width, factor * width);
}

// Adds accumulator a to accumulator d, or subtracts either from the other.
pub fn combine_tile(
    registers: &mut [u8],
    t: Tiles,
    sum: Sum,
    factor: usize,
    width: usize,
    d: usize,
    a: usize,
)
    requires d_bound { (d < 2) × (a < 2) }
    requires registers { Registers t (length registers.old) }
    requires width { Width width }
    requires width_2 { Width (factor * width) }
    requires factor_bound { factor ≤ 4 }
    requires m_le_rows { (t.m ≤ t.rows) × ((t.n ≤ most_pitch) × (t.n * width ≤ t.pitch)) }
    ensures { registers.new ≡ combine_tile (shape_of t) sum (factor * width) width d a t.m t.n registers.old }
{
    weigh_tile(registers, t, d, a, weights_of(sum, width, factor * width));
}

// Writes accumulator a times a number, of which x is the residue at 64 bits, to accumulator d.
pub fn scale_tile(
    registers: &mut [u8],
    t: Tiles,
    factor: usize,
    width: usize,
    d: usize,
    a: usize,
    x: u64,
)
    requires d_bound { (d < 2) × (a < 2) }
    requires registers { Registers t (length registers.old) }
    requires width { Width width }
    requires width_2 { Width (factor * width) }
    requires factor_bound { factor ≤ 4 }
    requires m_le_rows { (t.m ≤ t.rows) × ((t.n ≤ most_pitch) × (t.n * width ≤ t.pitch)) }
    ensures { (z : ℤ) → reduce (2 ^ 64) z ≡ x → registers.new ≡ scale_tile (shape_of t) (factor * width) width d a z t.m t.n registers.old }
{
    let weights = Weights {
        width,
        wide: factor * width,
        x: 0,
        y: x,
    };
    weigh_tile(registers, t, d, a, weights);
}
