// Where the tile of a matrix lies in its register, and what an output's width is a multiple of SEW by.
#![tactic(auto)]

ghost use Rattle.std.specs.Prelude.{◌≡◌, ◌<◌, ◌≤◌};
ghost use Rattle.machine.specs.Geometry.{register_count};
ghost use Rattle.machine.specs.Operation.{times};
ghost use Rattle.unit_settings.specs.Parts.{Ready};
ghost use Rattle.unit_geometry.specs.Tiles.{placed_as};

use machine::{Factor, Machine, Matrix};

// A tile of a register: where its first row starts, the bytes from row to row, its rows and columns.
#[derive(Clone, Copy)]
pub struct Placed {
    pub start: usize,
    pub pitch: usize,
    pub rows: usize,
    pub columns: usize,
}

// The tile of matrix in register r.
pub fn tile_of(m: Machine, matrix: Matrix, r: usize) -> Placed
    requires ready { Ready m }
    requires r_bound { r < register_count matrix }
    ensures { result ≡ placed_as m matrix r }
{
    let pitch = (m.rlen / 8) as usize;
    let size = (m.mlen / m.rlen) as usize * pitch;
    let tile_m = m.tile_m as usize;
    let tile_k = m.tile_k as usize;
    let tile_n = m.tile_n as usize;
    match matrix {
        Matrix::MatrixA => Placed {
            start: r * size,
            pitch: pitch,
            rows: tile_m,
            columns: tile_k,
        },
        Matrix::MatrixB => Placed {
            start: r * size,
            pitch: pitch,
            rows: tile_k,
            columns: tile_n,
        },
        Matrix::MatrixC => Placed {
            start: (8 + 4 * r) * size,
            pitch: 4 * pitch,
            rows: tile_m,
            columns: tile_n,
        },
    }
}

pub fn factor_of(factor: Factor) -> usize
    ensures { (result ≡ times factor) × (result ≤ 4) }
{
    match factor {
        Factor::Single => 1,
        Factor::Double => 2,
        Factor::Quadruple => 4,
    }
}
