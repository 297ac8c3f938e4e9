// Rows of the output, with sums at the output's width. What a row holds is defined in specs/.
// E is the type of the output's elements and of the accumulators, which are kept by wrapping sums. The factors are no wider, and are
// sign-extended before the product. s is the register bytes.
#![tactic(auto)]

ghost use Rattle.std.specs.Prelude.{◌≡◌, ℕ, ◌+◌, ◌*◌, ◌<◌, ◌≤◌, length, map, slice_index};
ghost use Rattle.numbers.specs.Tile.{get_le, put_row};
ghost use Rattle.machine.specs.ArithmeticWords.{product};
ghost use Rattle.numbers.specs.Bounds.{most_columns};
ghost use Rattle.unit_element.specs.Element.{Width};
ghost use Rattle.unit_sums.specs.Rows.{plus_product, product_row, weighted_row};

use unit_element::{COLUMNS, Element};

// The columns of a block of elements of eight bytes. With a literal number of them, and no more, LLVM keeps a row's accumulators in registers.
pub const BLOCK: usize = 8;

// Each accumulator plus x times the signed element of its column in the row at `at`.
fn mac_row<E: Element, N: Element>(acc: &mut [E], s: &[u8], at: usize, x: E)
    requires { at + length acc.old * N.BYTES ≤ length s.now }
    ensures { (j : ℕ) → j < length acc.old → slice_index (map E.number acc.new) j ≡ plus_product E.BYTES (slice_index (map E.number acc.old) j) (E.number x) s.now (at + j * N.BYTES) N.BYTES }
{
    for (j, sum) in acc.iter_mut().enumerate() {
        let y = E::from_signed(N::read(s, at + j * N::BYTES));
        *sum = sum.mac(x, y);
    }
}

// The same, for any width of the row's elements.
fn mac<E: Element>(acc: &mut [E], s: &[u8], at: usize, width: usize, x: E)
    requires width { (Width width) × (width ≤ E.BYTES) }
    requires width_in_bounds { at + length acc.old * width ≤ length s.now }
    ensures { (j : ℕ) → j < length acc.old → slice_index (map E.number acc.new) j ≡ plus_product E.BYTES (slice_index (map E.number acc.old) j) (E.number x) s.now (at + j * width) width }
{
    // By the least of the two, the compiler drops the arms of elements wider than the sums.
    match width.min(E::BYTES) {
        8 => mac_row::<E, u64>(acc, s, at, x),
        4 => mac_row::<E, u32>(acc, s, at, x),
        2 => mac_row::<E, u16>(acc, s, at, x),
        _ => mac_row::<E, u8>(acc, s, at, x),
    }
}

// Each accumulator, which was 0, becomes the sum over l below k of A(l) times B(l, j).
fn add_products<E: Element>(
    acc: &mut [E],
    s: &[u8],
    a: usize,
    b: usize,
    pitch: usize,
    width: usize,
    k: usize,
)
    requires zero { (j : ℕ) → slice_index (map E.number acc.old) j ≡ 0 }
    requires width { (Width width) × (width ≤ E.BYTES) }
    requires width_bound { length acc.old * width ≤ pitch }
    requires width_in_bounds { a + k * width ≤ length s.now }
    requires pitch_in_bounds { b + k * pitch ≤ length s.now }
    ensures { (j : ℕ) → j < length acc.old → slice_index (map E.number acc.new) j ≡ product E.BYTES width k 0 (λ l. get_le s.now (a + l * width) width) (λ l. get_le s.now (b + l * pitch + j * width) width) }
{
    for l in 0..k {
        let x = E::read_signed(s, a + l * width, width);
        mac(acc, s, b + l * pitch, width, x);
    }
}

// The row at `to` becomes x times itself plus the accumulators, each element read just before it is written.
fn finish_row<E: Element>(s: &mut [u8], acc: &[E], to: usize, x: E)
    requires { to + length acc.now * E.BYTES ≤ length s.old }
    ensures { s.new ≡ put_row to (length acc.now) E.BYTES (λ j. plus_product E.BYTES (slice_index (map E.number acc.now) j) (E.number x) s.old (to + j * E.BYTES) E.BYTES) s.old }
{
    for (j, sum) in acc.iter().enumerate() {
        let at = to + j * E::BYTES;
        let y = E::read(s, at);
        E::write(s, at, sum.mac(x, y));
    }
}

// One row of C, of at most MOST columns: its old elements enter the sums last, with the factor 1.
fn multiply<E: Element, const MOST: usize>(
    s: &mut [u8],
    a: usize,
    b: usize,
    c: usize,
    pitch: usize,
    width: usize,
    k: usize,
    n: usize,
)
    requires columns { (n ≤ MOST) × (MOST ≤ most_columns) }
    requires width { (Width width) × (width ≤ E.BYTES) }
    requires width_bound { n * width ≤ pitch }
    requires width_in_bounds { (a + k * width ≤ length s.old) × ((b + k * pitch ≤ length s.old) × (c + n * E.BYTES ≤ length s.old)) }
    ensures { s.new ≡ put_row c n E.BYTES (product_row s.old E.BYTES width pitch k a b c) s.old }
{
    let mut sums = [E::low(0); MOST];
    let acc = &mut sums[..n];
    add_products(acc, s, a, b, pitch, width, k);
    finish_row(s, acc, c, E::low(1));
}

// One row of C, of any number of columns.
pub fn multiply_row<E: Element>(
    s: &mut [u8],
    a: usize,
    b: usize,
    c: usize,
    pitch: usize,
    width: usize,
    k: usize,
    n: usize,
)
    requires n_le_most_columns { n ≤ most_columns }
    requires width { (Width width) × (width ≤ E.BYTES) }
    requires width_bound { n * width ≤ pitch }
    requires width_in_bounds { (a + k * width ≤ length s.old) × ((b + k * pitch ≤ length s.old) × (c + n * E.BYTES ≤ length s.old)) }
    ensures { s.new ≡ put_row c n E.BYTES (product_row s.old E.BYTES width pitch k a b c) s.old }
{
    if E::BYTES == 8 && n == BLOCK {
        multiply::<E, BLOCK>(s, a, b, c, pitch, width, k, BLOCK);
    } else {
        multiply::<E, COLUMNS>(s, a, b, c, pitch, width, k, n);
    }
}

// The row at `to` becomes x times itself plus y times the row at `from`.
pub fn weigh_row<E: Element>(
    s: &mut [u8],
    from: usize,
    to: usize,
    width: usize,
    n: usize,
    x: E,
    y: E,
)
    requires n_le_most_columns { n ≤ most_columns }
    requires width { (Width width) × (width ≤ E.BYTES) }
    requires width_in_bounds { (from + n * width ≤ length s.old) × (to + n * E.BYTES ≤ length s.old) }
    ensures { s.new ≡ put_row to n E.BYTES (weighted_row s.old from to width E.BYTES (E.number x) (E.number y)) s.old }
{
    let mut sums = [E::low(0); COLUMNS];
    let acc = &mut sums[..n];
    mac(acc, s, from, width, y);
    finish_row(s, acc, to, x);
}
