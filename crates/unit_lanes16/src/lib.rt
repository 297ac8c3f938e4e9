// Products of elements of one or two bytes with sums of 16 bits (crate unit_lanes); an output of 8 bits takes the low byte of each. s is the
// register bytes.
#![tactic(auto)]

ghost use Rattle.std.specs.Prelude.{◌≡◌, ◌+◌, ◌*◌, ◌≤◌, length};
ghost use Rattle.numbers.specs.Tile.{put_tile};
ghost use Rattle.numbers.specs.Bounds.{most_pitch, most_terms};
ghost use Rattle.unit_element.specs.Element.{Narrow};
ghost use Rattle.unit_sums.specs.Rows.{product_row};
ghost use Rattle.unit_lanes16.specs.Lanes.{lanes};

// The columns of a block (specs/Lanes.antt: lanes).
pub const LANES: usize = unit_element::COLUMNS / 2;

// A block, by the types of the elements; d has room for those of B.
fn multiply_with(
    s: &mut [u8],
    d: &mut [u16],
    a: usize,
    b: usize,
    c: usize,
    pitch: usize,
    width: usize,
    wide: usize,
    m: usize,
    k: usize,
    n: usize,
)
    requires n_le_lanes { (n ≤ lanes) × ((k * lanes ≤ length d.old) × (pitch ≤ most_pitch)) }
    requires narrow { (Narrow width) × (Narrow wide) }
    requires width_bound { (n * width ≤ pitch) × ((k * width ≤ pitch) × (n * wide ≤ 4 * pitch)) }
    requires width_bound_2 { (a + m * pitch + k * width ≤ c + pitch) × ((b + k * pitch ≤ c) × ((c ≤ length s.old) × (c + m * (4 * pitch) + n * wide ≤ length s.old + 4 * pitch))) }
    ensures { s.new ≡ put_tile (λ i. c + i * (4 * pitch)) m n wide (λ i. product_row s.old wide width pitch k (a + i * pitch) b (c + i * (4 * pitch))) s.old }
{
    match (width, wide) {
        (1, 1) => unit_lanes::multiply_rows::<u16, u8, u8, LANES>(s, d, a, b, c, pitch, m, k, n),
        (1, _) => unit_lanes::multiply_rows::<u16, u8, u16, LANES>(s, d, a, b, c, pitch, m, k, n),
        (_, 1) => unit_lanes::multiply_rows::<u16, u16, u8, LANES>(s, d, a, b, c, pitch, m, k, n),
        _ => unit_lanes::multiply_rows::<u16, u16, u16, LANES>(s, d, a, b, c, pitch, m, k, n),
    }
}

// The same, with no more room than k asks for: it is cleared each time.
pub fn multiply_rows(
    s: &mut [u8],
    a: usize,
    b: usize,
    c: usize,
    pitch: usize,
    width: usize,
    wide: usize,
    m: usize,
    k: usize,
    n: usize,
)
    requires n_le_lanes { (n ≤ lanes) × ((k ≤ most_terms) × (pitch ≤ most_pitch)) }
    requires narrow { (Narrow width) × (Narrow wide) }
    requires width_bound { (n * width ≤ pitch) × ((k * width ≤ pitch) × (n * wide ≤ 4 * pitch)) }
    requires width_bound_2 { (a + m * pitch + k * width ≤ c + pitch) × ((b + k * pitch ≤ c) × ((c ≤ length s.old) × (c + m * (4 * pitch) + n * wide ≤ length s.old + 4 * pitch))) }
    ensures { s.new ≡ put_tile (λ i. c + i * (4 * pitch)) m n wide (λ i. product_row s.old wide width pitch k (a + i * pitch) b (c + i * (4 * pitch))) s.old }
{
    if k <= 8 {
        let mut d = [0u16; 8 * LANES];
        multiply_with(s, &mut d, a, b, c, pitch, width, wide, m, k, n);
        return;
    }
    let mut d = [0u16; unit_element::TERMS * LANES];
    multiply_with(s, &mut d, a, b, c, pitch, width, wide, m, k, n);
}
