// Products of binary32 elements. s is the register bytes. A row of C is kept as values while its products are added, for k rising,
// in all columns of a block: LLVM then keeps the sums in vector registers. What is past the tile's columns counts for nothing. The values
// of B are fetched once for all rows. A larger tile is multiplied a block after another.
#![tactic(auto)]

ghost use Rattle.std.specs.Prelude.{◌≡◌, ℕ, ◌+◌, ◌*◌, ◌≤◌, ◌<◌, length, get_or};
ghost use Rattle.std.specs.Float.{nan};
ghost use Rattle.numbers.specs.Tile.{put_row};
ghost use Rattle.numbers.specs.Binary32.{settled, multiply_add, float_sum};
ghost use Rattle.numbers.specs.Bounds.{most_pitch, most_floats, most_terms};
ghost use Rattle.unit_arithmetic.specs.Products.{LiesIn};
ghost use Rattle.unit_arithmetic.specs.Tiles.{shape_of, Registers};
ghost use Rattle.unit_floats.specs.Rows.{float_at, float_row, float_tile, floats_added, first_rows, Fetched};

use unit_arithmetic::Tiles;
use unit_arithmetic::product::Product;
use unit_binary32::{multiply_add, stored_bits, value_of};
use unit_element::{COLUMNS, Element, TERMS};

// The columns of a block (numbers/specs/Bounds.antt: most_floats).
const FLOATS: usize = COLUMNS / 4;

// The values of B in a block.
const VALUES: usize = TERMS * FLOATS;

// The values of the row of n elements at `at`, from `to` on.
fn fetch_row(d: &mut [f32], to: usize, s: &[u8], at: usize, n: usize)
    requires n_in_bounds { to + n ≤ length d.old }
    requires n_in_bounds_2 { at + n * 4 ≤ length s.now }
    ensures by_index { (j : ℕ) → j < n → get_or d.new (to + j) nan ≡ float_at s.now (at + j * 4) }
    ensures by_index_2 { (i : ℕ) → i < to → get_or d.new i nan ≡ get_or d.old i nan }
{
    for j in 0..n {
        d[to + j] = value_of(u32::read(s, at + j * 4));
    }
}

// The values of B's tile, each row from its own place on.
fn fetch_tile(d: &mut [f32], s: &[u8], b: usize, pitch: usize, k: usize, n: usize)
    requires n_le_most_floats { (n ≤ most_floats) × (k * most_floats ≤ length d.old) }
    requires n_bound { (n * 4 ≤ pitch) × (b + k * pitch ≤ length s.now) }
    ensures { (l j : ℕ) → l < k → j < n → get_or d.new (l * most_floats + j) nan ≡ float_at s.now (b + l * pitch + j * 4) }
{
    for l in 0..k {
        fetch_row(d, l * FLOATS, s, b + l * pitch, n);
    }
}

// Each sum plus x times its value of the row at `at`.
fn mac_row(sums: &mut [f32], d: &[f32], at: usize, x: f32)
    requires most_floats_in_bounds { most_floats ≤ length sums.old }
    requires most_floats_in_bounds_2 { at + most_floats ≤ length d.now }
    ensures { (j : ℕ) → j < most_floats → get_or sums.new j nan ≡ multiply_add (get_or sums.old j nan) x (get_or d.now (at + j) nan) }
{
    for j in 0..FLOATS {
        sums[j] = multiply_add(sums[j], x, d[at + j]);
    }
}

// Each sum, and on from it the products of A(l) and its column's values, for l rising.
fn add_products(sums: &mut [f32], d: &[f32], s: &[u8], a: usize, k: usize)
    requires most_floats_in_bounds { most_floats ≤ length sums.old }
    requires most_floats_in_bounds_2 { k * most_floats ≤ length d.now }
    requires k_in_bounds { a + k * 4 ≤ length s.now }
    ensures { (j : ℕ) → j < most_floats → get_or sums.new j nan ≡ float_sum (get_or sums.old j nan) k (λ l. float_at s.now (a + l * 4)) (λ l. get_or d.now (l * most_floats + j) nan) }
{
    for l in 0..k {
        let x = value_of(u32::read(s, a + l * 4));
        mac_row(sums, d, l * FLOATS, x);
    }
}

// Stores the first n sums from `to` on.
fn store_row(s: &mut [u8], sums: &[f32], to: usize, n: usize)
    requires n_in_bounds { n ≤ length sums.now }
    requires n_in_bounds_2 { to + n * 4 ≤ length s.old }
    ensures { s.new ≡ put_row to n 4 (λ j. settled (get_or sums.now j nan)) s.old }
{
    for j in 0..n {
        u32::write(s, to + j * 4, stored_bits(sums[j]));
    }
}

// The first row of C; d holds the values of B.
fn multiply_row(s: &mut [u8], d: &[f32], p: Product)
    requires n_le_most_floats { (p.n ≤ most_floats) × (p.k * most_floats ≤ length d.now) }
    requires k_in_bounds { (p.a + p.k * 4 ≤ length s.old) × (p.c + p.n * 4 ≤ length s.old) }
    requires fetched { Fetched d.now p s.old }
    ensures { s.new ≡ put_row p.c p.n 4 (float_row s.old p.pitch p.k p.a p.b p.c) s.old }
{
    let mut sums = [0.0f32; FLOATS];
    fetch_row(&mut sums, 0, s, p.c, p.n);
    add_products(&mut sums, d, s, p.a, p.k);
    store_row(s, &sums, p.c, p.n);
}

// Each sum of two rows plus x or y times its value of the row at `at`.
// Two rows by name, and not an array of rows: LLVM then keeps the sums of both in registers.
fn mac_two(sums: &mut [f32], others: &mut [f32], d: &[f32], at: usize, x: f32, y: f32)
    requires most_floats_in_bounds { (most_floats ≤ length sums.old) × (most_floats ≤ length others.old) }
    requires most_floats_in_bounds_2 { at + most_floats ≤ length d.now }
    ensures by_index { (j : ℕ) → j < most_floats → get_or sums.new j nan ≡ multiply_add (get_or sums.old j nan) x (get_or d.now (at + j) nan) }
    ensures by_index_2 { (j : ℕ) → j < most_floats → get_or others.new j nan ≡ multiply_add (get_or others.old j nan) y (get_or d.now (at + j) nan) }
{
    for j in 0..FLOATS {
        sums[j] = multiply_add(sums[j], x, d[at + j]);
        others[j] = multiply_add(others[j], y, d[at + j]);
    }
}

// Each sum of two rows, and on from it the products of A(l), of its own row of A, and its column's values, for l rising.
fn add_two(sums: &mut [f32], others: &mut [f32], d: &[f32], s: &[u8], a: usize, e: usize, k: usize)
    requires most_floats_in_bounds { (most_floats ≤ length sums.old) × (most_floats ≤ length others.old) }
    requires most_floats_in_bounds_2 { k * most_floats ≤ length d.now }
    requires k_in_bounds { (a + k * 4 ≤ length s.now) × (e + k * 4 ≤ length s.now) }
    ensures by_index { (j : ℕ) → j < most_floats → get_or sums.new j nan ≡ float_sum (get_or sums.old j nan) k (λ l. float_at s.now (a + l * 4)) (λ l. get_or d.now (l * most_floats + j) nan) }
    ensures by_index_2 { (j : ℕ) → j < most_floats → get_or others.new j nan ≡ float_sum (get_or others.old j nan) k (λ l. float_at s.now (e + l * 4)) (λ l. get_or d.now (l * most_floats + j) nan) }
{
    for l in 0..k {
        let x = value_of(u32::read(s, a + l * 4));
        let y = value_of(u32::read(s, e + l * 4));
        mac_two(sums, others, d, l * FLOATS, x, y);
    }
}

// The first two rows of C, of FLOATS columns each; d holds the values of B.
fn multiply_two(s: &mut [u8], d: &[f32], p: Product)
    requires n_value { p.n ≡ most_floats }
    requires most_floats_in_bounds { p.k * most_floats ≤ length d.now }
    requires k_in_bounds { (p.a + p.pitch + p.k * 4 ≤ length s.old) × (p.c + 4 * p.pitch + most_floats * 4 ≤ length s.old) }
    requires fetched { Fetched d.now p s.old }
    ensures { s.new ≡ floats_added (first_rows p 2) s.old }
{
    let next = p.c + 4 * p.pitch;
    let mut sums = [0.0f32; FLOATS];
    let mut others = [0.0f32; FLOATS];
    fetch_row(&mut sums, 0, s, p.c, FLOATS);
    fetch_row(&mut others, 0, s, next, FLOATS);
    add_two(&mut sums, &mut others, d, s, p.a, p.a + p.pitch, p.k);
    store_row(s, &sums, p.c, FLOATS);
    store_row(s, &others, next, FLOATS);
}

// The first rows of C, two where they have FLOATS columns; how many.
fn multiply_next(s: &mut [u8], d: &[f32], p: Product) -> usize
    requires m_nonzero { (0 < p.m) × ((p.n ≤ most_floats) × (p.k * most_floats ≤ length d.now)) }
    requires lies_in { LiesIn p 4 4 (length s.old) }
    requires fetched { Fetched d.now p s.old }
    ensures result_nonzero { (0 < result) × (result ≤ p.m) }
    ensures s_after { s.new ≡ floats_added (first_rows p result) s.old }
{
    if p.n == FLOATS && p.m >= 2 {
        multiply_two(s, d, p);
        return 2;
    }
    multiply_row(s, d, p);
    1
}

// A block, in all rows of C; d has room for the values of B.
fn multiply_with(s: &mut [u8], d: &mut [f32], p: Product)
    requires n_le_most_floats { (p.n ≤ most_floats) × (p.k * most_floats ≤ length d.old) }
    requires lies_in { LiesIn p 4 4 (length s.old) }
    ensures { s.new ≡ floats_added p s.old }
{
    fetch_tile(d, s, p.b, p.pitch, p.k, p.n);
    let mut i = 0;
    // A while: its step is two rows or one, which no range has.
    while i < p.m {
        i += multiply_next(s, d, p.rows(i, p.m - i));
    }
}

// The same, with no more room than k asks for: it is cleared each time.
fn multiply_rows(s: &mut [u8], p: Product)
    requires n_le_most_floats { (p.n ≤ most_floats) × (p.k ≤ most_terms) }
    requires lies_in { LiesIn p 4 4 (length s.old) }
    ensures { s.new ≡ floats_added p s.old }
{
    if p.k <= 8 {
        let mut d = [0.0f32; VALUES / 2];
        multiply_with(s, &mut d, p);
        return;
    }
    let mut d = [0.0f32; VALUES];
    multiply_with(s, &mut d, p);
}

// All terms of at most FLOATS columns, a block after another; where there is no term, a block of none.
// It and multiply_blocks are unit_arithmetic's over another kernel: one function for both takes that as a closure with its law, and is longer.
fn multiply_terms(s: &mut [u8], p: Product)
    requires n_le_most_floats { p.n ≤ most_floats }
    requires lies_in { LiesIn p 4 4 (length s.old) }
    ensures { s.new ≡ floats_added p s.old }
{
    for l in (0..p.k.max(1)).step_by(TERMS) {
        let terms = TERMS.min(p.k - l);
        multiply_rows(s, p.terms(l, terms, 4));
    }
}

// All columns and terms.
fn multiply_blocks(s: &mut [u8], p: Product)
    requires lies_in { LiesIn p 4 4 (length s.old) }
    ensures { s.new ≡ floats_added p s.old }
{
    if p.m == 0 {
        return;
    }
    for j in (0..p.n).step_by(FLOATS) {
        let columns = FLOATS.min(p.n - j);
        multiply_terms(s, p.columns(j, columns, 4, 4));
    }
}

// Multiplies tile registers a and b and adds the product to accumulator d.
pub fn multiply_tile(registers: &mut [u8], t: Tiles, d: usize, a: usize, b: usize)
    requires d_bound { (d < 2) × ((a < 8) × (b < 8)) }
    requires registers { Registers t (length registers.old) }
    requires m_le_rows { (t.m ≤ t.rows) × ((t.k ≤ t.rows) × (t.k ≤ most_pitch)) }
    requires n_bound { (t.n * 4 ≤ t.pitch) × (t.k * 4 ≤ t.pitch) }
    ensures { registers.new ≡ float_tile (shape_of t) d a b t.m t.k t.n registers.old }
{
    multiply_blocks(registers, t.product(d, a, b));
}
