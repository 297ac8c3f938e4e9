// Products of elements of one or two bytes with accumulators of 32 bits, two terms at a time: SSE2 has no vector
// product of 32 bits, but one of 16 bits that adds neighbouring products. s is the register bytes.
#![tactic(auto)]

ghost use Rattle.std.specs.Prelude.{◌≡◌, ℕ, ◌+◌, ◌*◌, ◌/◌, ◌%◌, ◌^◌, ◌<◌, ◌≤◌, ◌⊎◌, length, ◌+ℤ◌, ◌*ℤ◌, slice_index};
ghost use Rattle.numbers.specs.Reduce.{reduce, signed};
ghost use Rattle.numbers.specs.Tile.{get_le, put_le, put_row, put_tile};
ghost use Rattle.numbers.specs.Bounds.{most_pitch, most_columns, most_terms};
ghost use Rattle.unit_element.specs.Element.{Narrow};
ghost use Rattle.unit_sums.specs.Rows.{product_row};
ghost use Rattle.unit_pairs.specs.Pairs.{half, padded, pair_places, factor_places, place_of, pair, plus_pairs, lane, pairs_row};

use unit_element::Element;

// The places of a pair of rows of B (specs/Pairs.antt: pair_places).
const PLACES: usize = 2 * unit_element::COLUMNS;

// Those of two pairs.
const TWO_PAIRS: usize = 2 * PLACES;

// The places of a row of A (factor_places).
const FACTORS: usize = 4 * unit_element::TERMS;

// x times y plus v times w, signed.
fn pair_of(x: u16, y: u16, v: u16, w: u16) -> u32
    ensures { result ≡ reduce (256 ^ 4) (signed (256 ^ 2) x *ℤ signed (256 ^ 2) y +ℤ signed (256 ^ 2) v *ℤ signed (256 ^ 2) w) }
{
    let xy = u32::from_signed(x).wrapping_product(u32::from_signed(y));
    let vw = u32::from_signed(v).wrapping_product(u32::from_signed(w));
    xy.wrapping_add(vw)
}

// The pair at `from` and `at`. Its second half is read first: LLVM then finds the two products as one instruction.
fn pair_at(xs: &[u16], from: usize, b: &[u16], at: usize) -> u32
    requires from_in_bounds { from + 2 ≤ length xs.now }
    requires at_in_bounds { at + 2 ≤ length b.now }
    ensures { result ≡ reduce (256 ^ 4) (pair xs.now from b.now at) }
{
    let v = xs[from + 1];
    let w = b[at + 1];
    let x = xs[from];
    let y = b[at];
    pair_of(x, y, v, w)
}

// A number of 32 bits for each of four columns side by side.
#[derive(Clone, Copy)]
struct Block {
    e0: u32,
    e1: u32,
    e2: u32,
    e3: u32,
}

// The four elements of C from `c` on.
fn read_block(s: &[u8], c: usize) -> Block
    requires { c + 16 ≤ length s.now }
    ensures { (q : ℕ) → q < 4 → lane result q ≡ get_le s.now (c + q * 4) 4 }
{
    Block {
        e0: u32::read(s, c),
        e1: u32::read(s, c + 4),
        e2: u32::read(s, c + 8),
        e3: u32::read(s, c + 12),
    }
}

// Stores x in the four elements from `c` on.
fn write_block(s: &mut [u8], c: usize, x: Block)
    requires { c + 16 ≤ length s.old }
    ensures { s.new ≡ put_row c 4 4 (lane x) s.old }
{
    u32::write(s, c, x.e0);
    u32::write(s, c + 4, x.e1);
    u32::write(s, c + 8, x.e2);
    u32::write(s, c + 12, x.e3);
}

// x plus y, column by column.
fn plus(x: Block, y: Block) -> Block
    ensures { (q : ℕ) → q < 4 → lane result q ≡ (lane x q + lane y q) % 256 ^ 4 }
{
    Block {
        e0: x.e0.wrapping_add(y.e0),
        e1: x.e1.wrapping_add(y.e1),
        e2: x.e2.wrapping_add(y.e2),
        e3: x.e3.wrapping_add(y.e3),
    }
}

// Four pairs, from `from` and `at` on.
fn pairs_at(xs: &[u16], from: usize, b: &[u16], at: usize) -> Block
    requires from_in_bounds { from + 8 ≤ length xs.now }
    requires at_in_bounds { at + 8 ≤ length b.now }
    ensures { (q : ℕ) → q < 4 → lane result q ≡ reduce (256 ^ 4) (pair xs.now (from + 2 * q) b.now (at + 2 * q)) }
{
    Block {
        e0: pair_at(xs, from, b, at),
        e1: pair_at(xs, from + 2, b, at + 2),
        e2: pair_at(xs, from + 4, b, at + 4),
        e3: pair_at(xs, from + 6, b, at + 6),
    }
}

// Four elements of C from `c` on, each plus all pairs of its column, an even number; the columns start at `o` in b.
// A pair is added one turn after it is formed: LLVM then keeps its two products as one instruction.
fn add_block(s: &mut [u8], c: usize, b: &[u16], o: usize, xs: &[u16], pairs: usize)
    requires c_in_bounds { c + 16 ≤ length s.old }
    requires o_bound { (o + 8 ≤ pair_places) × (pairs * pair_places ≤ length b.now) }
    requires pairs_value { (pairs % 2 ≡ 0) × (pairs * 8 ≤ length xs.now) }
    ensures { s.new ≡ put_row c 4 4 (pairs_row s.old c xs.now b.now o pairs) s.old }
{
    let mut sum = read_block(s, c);
    let mut t = Block {
        e0: 0,
        e1: 0,
        e2: 0,
        e3: 0,
    };
    let mut u = t;
    for i in 0..pairs / 2 {
        sum = plus(plus(sum, t), u);
        let at = o + i * TWO_PAIRS;
        t = pairs_at(xs, 16 * i, b, at);
        u = pairs_at(xs, 16 * i + 8, b, at + PLACES);
    }
    write_block(s, c, plus(plus(sum, t), u));
}

// The element of C at `c` plus all pairs of its column, which start at `o` in b and at `from` in xs.
fn add_column(s: &mut [u8], c: usize, b: &[u16], o: usize, xs: &[u16], from: usize, pairs: usize)
    requires c_in_bounds { c + 4 ≤ length s.old }
    requires o_bound { (o + 2 ≤ pair_places) × (pairs * pair_places ≤ length b.now) }
    requires from_bound { (from + 2 ≤ 8) × (pairs * 8 ≤ length xs.now) }
    ensures { s.new ≡ put_le c 4 (plus_pairs (get_le s.old c 4) xs.now from b.now o pairs) s.old }
{
    let mut sum = u32::read(s, c);
    for p in 0..pairs {
        let y = pair_at(xs, from + 8 * p, b, o + p * PLACES);
        sum = sum.wrapping_add(y);
    }
    u32::write(s, c, sum);
}

// At most three elements of C from `c` on, one after another.
fn add_columns(s: &mut [u8], c: usize, b: &[u16], o: usize, xs: &[u16], pairs: usize, n: usize)
    requires n_bound { (n < 4) × (c + n * 4 ≤ length s.old) }
    requires n_bound_2 { (o + n * 2 ≤ pair_places) × (pairs * pair_places ≤ length b.now) }
    requires pairs_in_bounds { pairs * 8 ≤ length xs.now }
    ensures { s.new ≡ put_row c n 4 (pairs_row s.old c xs.now b.now o pairs) s.old }
{
    for j in 0..n {
        add_column(s, c + j * 4, b, o + 2 * j, xs, 2 * j, pairs);
    }
}

// The row of C at `c`, in blocks of four; what is left of it in single columns.
fn add_row(s: &mut [u8], c: usize, b: &[u16], xs: &[u16], pairs: usize, n: usize)
    requires n_le_most_columns { (n ≤ most_columns) × (c + n * 4 ≤ length s.old) }
    requires pair_places_in_bounds { pairs * pair_places ≤ length b.now }
    requires pairs_value { (pairs % 2 ≡ 0) × (pairs * 8 ≤ length xs.now) }
    ensures { s.new ≡ put_row c n 4 (pairs_row s.old c xs.now b.now 0 pairs) s.old }
{
    let blocks = n / 4;
    for i in 0..blocks {
        add_block(s, c + 16 * i, b, 8 * i, xs, pairs);
    }
    add_columns(s, c + 16 * blocks, b, 8 * blocks, xs, pairs, n % 4);
}

// x and y, four times from `o` on.
fn repeat4(d: &mut [u16], o: usize, x: u16, y: u16)
    requires { o + 8 ≤ length d.old }
    ensures by_index { (q : ℕ) → q < 4 → (slice_index d.new (o + 2 * q) ≡ x) × (slice_index d.new (o + 2 * q + 1) ≡ y) }
    ensures by_index_2 { (i : ℕ) → (i < o) ⊎ (o + 8 ≤ i) → slice_index d.new i ≡ slice_index d.old i }
{
    for q in 0..4 {
        d[o + 2 * q] = x;
        d[o + 2 * q + 1] = y;
    }
}

// The row of A at `a` in pairs, each pair four times; after its last element stand zeros.
fn repeat_row(d: &mut [u16], s: &[u8], a: usize, width: usize, k: usize)
    requires narrow { Narrow width }
    requires k_le_most_terms { (k ≤ most_terms) × (length d.old ≡ factor_places) }
    requires by_index { (i : ℕ) → slice_index d.old i ≡ 0 }
    requires width_in_bounds { a + k * width ≤ length s.now }
    ensures { (p q : ℕ) → q < 4 → (slice_index d.new (8 * p + 2 * q) ≡ padded s.now a width k (2 * p)) × (slice_index d.new (8 * p + 2 * q + 1) ≡ padded s.now a width k (2 * p + 1)) }
{
    let pairs = k / 2;
    for p in 0..pairs {
        let at = a + 2 * p * width;
        let x = u16::read_signed(s, at, width);
        let y = u16::read_signed(s, at + width, width);
        repeat4(d, 8 * p, x, y);
    }
    if k % 2 == 1 {
        let x = u16::read_signed(s, a + 2 * pairs * width, width);
        repeat4(d, 8 * pairs, x, 0);
    }
}

// The elements of the rows at `p` and `q`, alternating.
fn interleave(d: &mut [u16], to: usize, s: &[u8], p: usize, q: usize, width: usize, n: usize)
    requires narrow { Narrow width }
    requires n_in_bounds { to + n * 2 ≤ length d.old }
    requires width_in_bounds { (p + n * width ≤ length s.now) × (q + n * width ≤ length s.now) }
    ensures by_index { (j : ℕ) → j < n → (slice_index d.new (to + 2 * j) ≡ half s.now (p + j * width) width) × (slice_index d.new (to + 2 * j + 1) ≡ half s.now (q + j * width) width) }
    ensures by_index_2 { (i : ℕ) → i < to → slice_index d.new i ≡ slice_index d.old i }
{
    // The places go by sums: those in s reckoned from j, products of 16 to 32 bits take 1.07, and those in d, of one row 1.27.
    let mut o = to;
    let mut f = p;
    let mut g = q;
    for _j in 0..n {
        d[o] = u16::read_signed(s, f, width);
        d[o + 1] = u16::read_signed(s, g, width);
        o += 2;
        f += width;
        g += width;
    }
}

// All rows of B in pairs; a last row without a second stands with itself, and its second factor is 0.
fn interleave_rows(
    d: &mut [u16],
    s: &[u8],
    b: usize,
    pitch: usize,
    width: usize,
    k: usize,
    n: usize,
)
    requires narrow { Narrow width }
    requires n_le_most_columns { n ≤ most_columns }
    requires pair_places_in_bounds { (k + 1) / 2 * pair_places ≤ length d.old }
    requires width_bound { n * width ≤ pitch }
    requires pitch_in_bounds { b + k * pitch ≤ length s.now }
    ensures { (l j : ℕ) → l < k → j < n → slice_index d.new (place_of l j) ≡ half s.now (b + l * pitch + j * width) width }
{
    let pairs = k / 2;
    for p in 0..pairs {
        let row = b + 2 * p * pitch;
        interleave(d, p * PLACES, s, row, row + pitch, width, n);
    }
    if k % 2 == 1 {
        let row = b + 2 * pairs * pitch;
        interleave(d, pairs * PLACES, s, row, row, width, n);
    }
}

// The same; the width is a literal in each call, so that the compiler knows the loop's step.
fn interleave_tile(
    d: &mut [u16],
    s: &[u8],
    b: usize,
    pitch: usize,
    width: usize,
    k: usize,
    n: usize,
)
    requires narrow { Narrow width }
    requires n_le_most_columns { n ≤ most_columns }
    requires pair_places_in_bounds { (k + 1) / 2 * pair_places ≤ length d.old }
    requires width_bound { n * width ≤ pitch }
    requires pitch_in_bounds { b + k * pitch ≤ length s.now }
    ensures { (l j : ℕ) → l < k → j < n → slice_index d.new (place_of l j) ≡ half s.now (b + l * pitch + j * width) width }
{
    if width == 1 {
        interleave_rows(d, s, b, pitch, 1, k, n);
        return;
    }
    interleave_rows(d, s, b, pitch, 2, k, n);
}

// One row of C; bs holds the rows of B in pairs.
fn multiply_row(
    s: &mut [u8],
    bs: &[u16],
    a: usize,
    b: usize,
    c: usize,
    pitch: usize,
    width: usize,
    k: usize,
    n: usize,
)
    requires n_le_most_columns { (n ≤ most_columns) × (k ≤ most_terms) }
    requires narrow { Narrow width }
    requires pair_places_in_bounds { (k + 3) / 4 * (2 * pair_places) ≤ length bs.now }
    requires width_in_bounds { (a + k * width ≤ length s.old) × (c + n * 4 ≤ length s.old) }
    requires by_index { (l j : ℕ) → l < k → j < n → slice_index bs.now (place_of l j) ≡ half s.old (b + l * pitch + j * width) width }
    ensures { s.new ≡ put_row c n 4 (product_row s.old 4 width pitch k a b c) s.old }
{
    let mut xs = [0u16; FACTORS];
    repeat_row(&mut xs, s, a, width, k);
    // An even number of pairs: the last may have zeros from A.
    add_row(s, c, bs, &xs, (k + 3) / 4 * 2, n);
}

// All rows of C, one after another; bs has room for the rows of B in pairs.
fn multiply_with(
    s: &mut [u8],
    bs: &mut [u16],
    a: usize,
    b: usize,
    c: usize,
    pitch: usize,
    width: usize,
    m: usize,
    k: usize,
    n: usize,
)
    requires n_le_most_columns { (n ≤ most_columns) × ((k ≤ most_terms) × (pitch ≤ most_pitch)) }
    requires narrow { Narrow width }
    requires width_bound { (n * width ≤ pitch) × ((k * width ≤ pitch) × (n * 4 ≤ 4 * pitch)) }
    requires width_bound_2 { (a + m * pitch + k * width ≤ c + pitch) × ((b + k * pitch ≤ c) × ((c ≤ length s.old) × (c + m * (4 * pitch) + n * 4 ≤ length s.old + 4 * pitch))) }
    requires pair_places_in_bounds { (k + 3) / 4 * (2 * pair_places) ≤ length bs.old }
    ensures { s.new ≡ put_tile (λ i. c + i * (4 * pitch)) m n 4 (λ i. product_row s.old 4 width pitch k (a + i * pitch) b (c + i * (4 * pitch))) s.old }
{
    interleave_tile(bs, s, b, pitch, width, k, n);
    for i in 0..m {
        let from = a + i * pitch;
        let to = c + i * (4 * pitch);
        multiply_row(s, bs, from, b, to, pitch, width, k, n);
    }
}

// The same, with no more room than k asks for: it is cleared each time.
pub fn multiply_rows(
    s: &mut [u8],
    a: usize,
    b: usize,
    c: usize,
    pitch: usize,
    width: usize,
    m: usize,
    k: usize,
    n: usize,
)
    requires n_le_most_columns { (n ≤ most_columns) × ((k ≤ most_terms) × (pitch ≤ most_pitch)) }
    requires narrow { Narrow width }
    requires width_bound { (n * width ≤ pitch) × ((k * width ≤ pitch) × (n * 4 ≤ 4 * pitch)) }
    requires width_bound_2 { (a + m * pitch + k * width ≤ c + pitch) × ((b + k * pitch ≤ c) × ((c ≤ length s.old) × (c + m * (4 * pitch) + n * 4 ≤ length s.old + 4 * pitch))) }
    ensures { s.new ≡ put_tile (λ i. c + i * (4 * pitch)) m n 4 (λ i. product_row s.old 4 width pitch k (a + i * pitch) b (c + i * (4 * pitch))) s.old }
{
    if k <= 4 {
        let mut bs = [0u16; TWO_PAIRS];
        multiply_with(s, &mut bs, a, b, c, pitch, width, m, k, n);
        return;
    }
    if k <= 8 {
        let mut bs = [0u16; 2 * TWO_PAIRS];
        multiply_with(s, &mut bs, a, b, c, pitch, width, m, k, n);
        return;
    }
    let mut bs = [0u16; unit_element::TERMS / 4 * TWO_PAIRS];
    multiply_with(s, &mut bs, a, b, c, pitch, width, m, k, n);
}
