// Products with the sums of a row side by side, a lane each: LLVM then keeps them in vector registers. E is the type of the sums, which are
// kept by wrapping adds; N that of the elements of A and B, and O that of C's, neither wider than E; L the number of lanes. s is the register
// bytes. The elements of B stand in d, as residues at E, for all rows of C. What is past the tile's columns counts for nothing.
#![tactic(auto)]

ghost use Rattle.std.specs.Prelude.{◌≡◌, ℕ, ◌+◌, ◌*◌, ◌^◌, ◌<◌, ◌≤◌, ◌⊎◌, length, map, slice_index};
ghost use Rattle.numbers.specs.Reduce.{reduce, signed};
ghost use Rattle.numbers.specs.Tile.{put_row, put_tile};
ghost use Rattle.numbers.specs.Bounds.{most_pitch, most_columns};
ghost use Rattle.machine.specs.ArithmeticWords.{product};
ghost use Rattle.unit_sums.specs.Rows.{residue_at, plus_times, product_row};

use unit_element::Element;

// The elements of the row of n at `at`, from `to` on.
fn fetch_row<E: Element, N: Element>(d: &mut [E], to: usize, s: &[u8], at: usize, n: usize)
    requires n_in_bounds { (to + n ≤ length d.old) × (at + n * N.BYTES ≤ length s.now) }
    ensures fetched { (j : ℕ) → j < n → slice_index (map E.number d.new) (to + j) ≡ residue_at E.BYTES s.now (at + j * N.BYTES) N.BYTES }
    ensures others { (i : ℕ) → (i < to) ⊎ (to + n ≤ i) → slice_index (map E.number d.new) i ≡ slice_index (map E.number d.old) i }
{
    for j in 0..n {
        d[to + j] = E::from_signed(N::read(s, at + j * N::BYTES));
    }
}

// The elements of B's tile, each row from its own place on.
fn fetch_tile<E: Element, N: Element, const L: usize>(
    d: &mut [E],
    s: &[u8],
    b: usize,
    pitch: usize,
    k: usize,
    n: usize,
)
    requires n_le_lanes { (n ≤ L) × (k * L ≤ length d.old) }
    requires n_bound { (n * N.BYTES ≤ pitch) × (b + k * pitch ≤ length s.now) }
    ensures { (l j : ℕ) → l < k → j < n → slice_index (map E.number d.new) (l * L + j) ≡ residue_at E.BYTES s.now (b + l * pitch + j * N.BYTES) N.BYTES }
{
    for l in 0..k {
        fetch_row::<E, N>(d, l * L, s, b + l * pitch, n);
    }
}

// Element l of the row of k at `at`, as a residue; 0 behind the last.
fn term<E: Element, N: Element>(s: &[u8], at: usize, l: usize, k: usize) -> E
    requires { at + k * N.BYTES ≤ length s.now }
    ensures within { l < k → E.number result ≡ residue_at E.BYTES s.now (at + l * N.BYTES) N.BYTES }
    ensures behind { k ≤ l → E.number result ≡ 0 }
{
    if l < k {
        E::from_signed(N::read(s, at + l * N::BYTES))
    } else {
        E::low(0)
    }
}

// Each sum plus x times its element of the row at `at` and y times that of the row at `next`. Two terms at once: of a shorter body LLVM unrolls all
// lanes before it can keep the sums in vector registers, which takes up to seven times as long.
fn mac_terms<E: Element, const L: usize>(
    sums: &mut [E],
    d: &[E],
    at: usize,
    next: usize,
    x: E,
    y: E,
)
    requires lanes_in_bounds { (L ≤ length sums.old) × ((at + L ≤ length d.now) × (next + L ≤ length d.now)) }
    ensures { (j : ℕ) → j < L → slice_index (map E.number sums.new) j
        ≡ plus_times E.BYTES (plus_times E.BYTES (slice_index (map E.number sums.old) j) (E.number x) (slice_index (map E.number d.now) (at + j)))
        (E.number y) (slice_index (map E.number d.now) (next + j)) }
{
    for j in 0..L {
        sums[j] = sums[j].mac(x, d[at + j]).mac(y, d[next + j]);
    }
}

// Each sum plus the products of A(l) and its column's elements, two terms at a time; the last of an odd number with 0 beside it.
fn add_products<E: Element, N: Element, const L: usize>(
    sums: &mut [E],
    d: &[E],
    s: &[u8],
    a: usize,
    k: usize,
)
    requires lanes_in_bounds { (L ≤ length sums.old) × (k * L ≤ length d.now) }
    requires in_range { (j : ℕ) → j < L → slice_index (map E.number sums.old) j < 256 ^ E.BYTES }
    requires k_in_bounds { a + k * N.BYTES ≤ length s.now }
    ensures { (j : ℕ) → j < L → slice_index (map E.number sums.new) j ≡ product E.BYTES E.BYTES k (slice_index (map E.number sums.old) j) (λ l. residue_at E.BYTES s.now (a + l * N.BYTES) N.BYTES) (λ l. slice_index (map E.number d.now) (l * L + j)) }
{
    for p in 0..k / 2 + k % 2 {
        let l = 2 * p;
        let next = (l + 1).min(k - 1);
        let x = E::from_signed(N::read(s, a + l * N::BYTES));
        let y = term::<E, N>(s, a, l + 1, k);
        mac_terms::<E, L>(sums, d, l * L, next * L, x, y);
    }
}

// Stores the low bytes of the first n sums from `to` on.
fn store_row<E: Element, O: Element>(s: &mut [u8], sums: &[E], to: usize, n: usize)
    requires n_in_bounds { (n ≤ length sums.now) × (to + n * O.BYTES ≤ length s.old) }
    ensures { s.new ≡ put_row to n O.BYTES (λ j. reduce (256 ^ O.BYTES) (signed (256 ^ E.BYTES) (slice_index (map E.number sums.now) j))) s.old }
{
    for j in 0..n {
        O::write(s, to + j * O::BYTES, O::from_signed(sums[j]));
    }
}

// One row of C; d holds the elements of B's tile.
fn multiply_row<E: Element, N: Element, O: Element, const L: usize>(
    s: &mut [u8],
    d: &[E],
    a: usize,
    b: usize,
    c: usize,
    pitch: usize,
    k: usize,
    n: usize,
)
    requires widths { (N.BYTES ≤ E.BYTES) × (O.BYTES ≤ E.BYTES) }
    requires lanes { (n ≤ L) × ((L ≤ most_columns) × (k * L ≤ length d.now)) }
    requires k_in_bounds { (a + k * N.BYTES ≤ length s.old) × (c + n * O.BYTES ≤ length s.old) }
    requires fetched { (l j : ℕ) → l < k → j < n → slice_index (map E.number d.now) (l * L + j) ≡ residue_at E.BYTES s.old (b + l * pitch + j * N.BYTES) N.BYTES }
    ensures { s.new ≡ put_row c n O.BYTES (product_row s.old O.BYTES N.BYTES pitch k a b c) s.old }
{
    let mut sums = [E::low(0); L];
    fetch_row::<E, O>(&mut sums, 0, s, c, n);
    add_products::<E, N, L>(&mut sums, d, s, a, k);
    store_row::<E, O>(s, &sums, c, n);
}

// Each sum of two rows plus x or y times its element of the row at `at`.
fn mac_two<E: Element, const L: usize>(
    sums: &mut [E],
    others: &mut [E],
    d: &[E],
    at: usize,
    x: E,
    y: E,
)
    requires lanes_in_bounds { (L ≤ length sums.old) × ((L ≤ length others.old) × (at + L ≤ length d.now)) }
    ensures first { (j : ℕ) → j < L → slice_index (map E.number sums.new) j ≡ plus_times E.BYTES (slice_index (map E.number sums.old) j) (E.number x) (slice_index (map E.number d.now) (at + j)) }
    ensures second { (j : ℕ) → j < L → slice_index (map E.number others.new) j ≡ plus_times E.BYTES (slice_index (map E.number others.old) j) (E.number y) (slice_index (map E.number d.now) (at + j)) }
{
    for j in 0..L {
        let z = d[at + j];
        sums[j] = sums[j].mac(x, z);
        others[j] = others[j].mac(y, z);
    }
}

// Each sum of two rows plus the products of A(l), of its own row of A, and its column's elements.
fn add_two<E: Element, N: Element, const L: usize>(
    sums: &mut [E],
    others: &mut [E],
    d: &[E],
    s: &[u8],
    a: usize,
    e: usize,
    k: usize,
)
    requires lanes_in_bounds { (L ≤ length sums.old) × ((L ≤ length others.old) × (k * L ≤ length d.now)) }
    requires in_range { ((j : ℕ) → j < L → slice_index (map E.number sums.old) j < 256 ^ E.BYTES) × ((j : ℕ) → j < L → slice_index (map E.number others.old) j < 256 ^ E.BYTES) }
    requires k_in_bounds { (a + k * N.BYTES ≤ length s.now) × (e + k * N.BYTES ≤ length s.now) }
    ensures first { (j : ℕ) → j < L → slice_index (map E.number sums.new) j ≡ product E.BYTES E.BYTES k (slice_index (map E.number sums.old) j) (λ l. residue_at E.BYTES s.now (a + l * N.BYTES) N.BYTES) (λ l. slice_index (map E.number d.now) (l * L + j)) }
    ensures second { (j : ℕ) → j < L → slice_index (map E.number others.new) j ≡ product E.BYTES E.BYTES k (slice_index (map E.number others.old) j) (λ l. residue_at E.BYTES s.now (e + l * N.BYTES) N.BYTES) (λ l. slice_index (map E.number d.now) (l * L + j)) }
{
    for l in 0..k {
        let x = E::from_signed(N::read(s, a + l * N::BYTES));
        let y = E::from_signed(N::read(s, e + l * N::BYTES));
        mac_two::<E, L>(sums, others, d, l * L, x, y);
    }
}

// Two rows of C, of L columns each.
fn multiply_two<E: Element, N: Element, O: Element, const L: usize>(
    s: &mut [u8],
    d: &[E],
    a: usize,
    b: usize,
    c: usize,
    pitch: usize,
    k: usize,
)
    requires widths { (N.BYTES ≤ E.BYTES) × (O.BYTES ≤ E.BYTES) }
    requires lanes { (L ≤ most_columns) × (k * L ≤ length d.now) }
    requires k_in_bounds { (a + pitch + k * N.BYTES ≤ length s.old) × (c + 4 * pitch + L * O.BYTES ≤ length s.old) }
    requires fetched { (l j : ℕ) → l < k → j < L → slice_index (map E.number d.now) (l * L + j) ≡ residue_at E.BYTES s.old (b + l * pitch + j * N.BYTES) N.BYTES }
    ensures { s.new ≡ put_tile (λ i. c + i * (4 * pitch)) 2 L O.BYTES (λ i. product_row s.old O.BYTES N.BYTES pitch k (a + i * pitch) b (c + i * (4 * pitch))) s.old }
{
    let next = c + 4 * pitch;
    let mut sums = [E::low(0); L];
    let mut others = [E::low(0); L];
    fetch_row::<E, O>(&mut sums, 0, s, c, L);
    fetch_row::<E, O>(&mut others, 0, s, next, L);
    add_two::<E, N, L>(&mut sums, &mut others, d, s, a, a + pitch, k);
    store_row::<E, O>(s, &sums, c, L);
    store_row::<E, O>(s, &others, next, L);
}

// A block, in all rows of C, two at once where it has L columns; d has room for the elements of B.
pub fn multiply_rows<E: Element, N: Element, O: Element, const L: usize>(
    s: &mut [u8],
    d: &mut [E],
    a: usize,
    b: usize,
    c: usize,
    pitch: usize,
    m: usize,
    k: usize,
    n: usize,
)
    requires widths { (N.BYTES ≤ E.BYTES) × (O.BYTES ≤ E.BYTES) }
    requires lanes { (n ≤ L) × ((L ≤ most_columns) × ((k * L ≤ length d.old) × (pitch ≤ most_pitch))) }
    requires width_bound { (n * N.BYTES ≤ pitch) × ((k * N.BYTES ≤ pitch) × (n * O.BYTES ≤ 4 * pitch)) }
    requires width_bound_2 { (a + m * pitch + k * N.BYTES ≤ c + pitch) × ((b + k * pitch ≤ c) × ((c ≤ length s.old) × (c + m * (4 * pitch) + n * O.BYTES ≤ length s.old + 4 * pitch))) }
    ensures { s.new ≡ put_tile (λ i. c + i * (4 * pitch)) m n O.BYTES (λ i. product_row s.old O.BYTES N.BYTES pitch k (a + i * pitch) b (c + i * (4 * pitch))) s.old }
{
    fetch_tile::<E, N, L>(d, s, b, pitch, k, n);
    let pairs = if n == L { m / 2 } else { 0 };
    for p in 0..pairs {
        let from = a + 2 * p * pitch;
        let to = c + 2 * p * (4 * pitch);
        multiply_two::<E, N, O, L>(s, d, from, b, to, pitch, k);
    }
    for i in 2 * pairs..m {
        let from = a + i * pitch;
        let to = c + i * (4 * pitch);
        multiply_row::<E, N, O, L>(s, d, from, b, to, pitch, k, n);
    }
}
