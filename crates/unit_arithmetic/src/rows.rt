// Products row by row, for any output width.
ghost use Rattle.std.specs.Prelude.{◌≡◌, ◌+◌, ◌*◌, ◌≤◌, length};
ghost use Rattle.numbers.specs.Tile.{put_row};
ghost use Rattle.numbers.specs.Bounds.{most_columns};
ghost use Rattle.unit_arithmetic.specs.Products.{Widths, LiesIn, added};
ghost use Rattle.unit_sums.specs.Rows.{product_row};

use super::product::Product;

// The first row of C, with sums at the output's width.
fn multiply_row(s: &mut [u8], p: Product, width: usize, wide: usize)
    requires n_le_most_columns { p.n ≤ most_columns }
    requires widths { Widths width wide }
    requires width_bound { p.n * width ≤ p.pitch }
    requires width_in_bounds { (p.a + p.k * width ≤ length s.old) × ((p.b + p.k * p.pitch ≤ length s.old) × (p.c + p.n * wide ≤ length s.old)) }
    ensures { s.new ≡ put_row p.c p.n wide (product_row s.old wide width p.pitch p.k p.a p.b p.c) s.old }
{
    match wide {
        1 => unit_sums::multiply_row::<u8>(s, p.a, p.b, p.c, p.pitch, width, p.k, p.n),
        2 => unit_sums::multiply_row::<u16>(s, p.a, p.b, p.c, p.pitch, width, p.k, p.n),
        4 => unit_sums::multiply_row::<u32>(s, p.a, p.b, p.c, p.pitch, width, p.k, p.n),
        _ => unit_sums::multiply_row::<u64>(s, p.a, p.b, p.c, p.pitch, width, p.k, p.n),
    }
}

// All rows of C, one after another.
pub fn multiply_rows(s: &mut [u8], p: Product, width: usize, wide: usize)
    requires n_le_most_columns { p.n ≤ most_columns }
    requires widths { Widths width wide }
    requires lies_in { LiesIn p width wide (length s.old) }
    ensures { s.new ≡ added p width wide s.old }
{
    for i in 0..p.m {
        multiply_row(s, p.rows(i, 1), width, wide);
    }
}
