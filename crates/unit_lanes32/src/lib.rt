// Products of elements of four bytes with sums of 32 bits (crate unit_lanes). s is the register bytes.
#![tactic(auto)]

ghost use Rattle.std.specs.Prelude.{◌≡◌, ◌+◌, ◌*◌, ◌≤◌, length};
ghost use Rattle.numbers.specs.Tile.{put_tile};
ghost use Rattle.numbers.specs.Bounds.{most_pitch, most_terms};
ghost use Rattle.unit_sums.specs.Rows.{product_row};
ghost use Rattle.unit_lanes32.specs.Lanes.{lanes};

// The columns of a block (specs/Lanes.antt: lanes).
pub const LANES: usize = unit_element::COLUMNS / 4;

// A block, with no more room for the elements of B than k asks for: it is cleared each time.
pub fn multiply_rows(
    s: &mut [u8],
    a: usize,
    b: usize,
    c: usize,
    pitch: usize,
    m: usize,
    k: usize,
    n: usize,
)
    requires n_le_lanes { (n ≤ lanes) × ((k ≤ most_terms) × (pitch ≤ most_pitch)) }
    requires n_bound { (n * 4 ≤ pitch) × (k * 4 ≤ pitch) }
    requires k_bound { (a + m * pitch + k * 4 ≤ c + pitch) × ((b + k * pitch ≤ c) × ((c ≤ length s.old) × (c + m * (4 * pitch) + n * 4 ≤ length s.old + 4 * pitch))) }
    ensures { s.new ≡ put_tile (λ i. c + i * (4 * pitch)) m n 4 (λ i. product_row s.old 4 4 pitch k (a + i * pitch) b (c + i * (4 * pitch))) s.old }
{
    if k <= 8 {
        let mut few = [0u32; 8 * LANES];
        unit_lanes::multiply_rows::<u32, u32, u32, LANES>(s, &mut few, a, b, c, pitch, m, k, n);
        return;
    }
    let mut d = [0u32; unit_element::TERMS * LANES];
    unit_lanes::multiply_rows::<u32, u32, u32, LANES>(s, &mut d, a, b, c, pitch, m, k, n);
}
