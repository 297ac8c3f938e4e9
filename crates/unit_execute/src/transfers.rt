// Loads and stores.
ghost use Rattle.std.specs.Prelude.{◌≡◌, true, ◌<◌};
ghost use Rattle.machine.specs.Geometry.{register_count, sealed};
ghost use Rattle.machine.specs.Faults.{sound, seals_fit};
ghost use Rattle.unit_ranges.specs.Ranges.{seals_in};
ghost use Rattle.machine.specs.Operation.{Operation};
ghost use Rattle.unit_execute.specs.Parts.{WritesRegisters, WritesMemory};

use machine::{Answer, Form, Machine, Matrix};
use unit_checks::sizes::check_transfer;
use unit_geometry::tile_of;
use unit_tile::Transfer;

// Answers 2 to 4 and 6, and the load.
pub fn load(
    m: Machine,
    registers: &mut [u8],
    marks: &mut [u8],
    memory: &[u8],
    form: Form,
    matrix: Matrix,
    width: usize,
    md: usize,
    base: u64,
    stride: u64,
) -> Answer
    requires marks_value { sound m registers.old marks.old ≡ true }
    requires md_bound { md < register_count matrix }
    ensures { WritesRegisters m (Operation.load form matrix md width base stride) registers.old marks.old memory.now result registers.new marks.new }
{
    check_transfer(m, matrix, width)?;
    let p = tile_of(m, matrix, md);
    unit_transfer::load(
        form,
        registers,
        marks,
        memory,
        Transfer {
            start: p.start,
            pitch: p.pitch,
            base: base,
            stride: stride,
            rows: p.rows,
            columns: p.columns,
            width: width,
        },
    )
}

// Answers 2 to 6, 13 and 7, and the store.
pub fn store(
    m: Machine,
    seals: &[u8],
    registers: &[u8],
    marks: &[u8],
    memory: &mut [u8],
    form: Form,
    matrix: Matrix,
    width: usize,
    ms3: usize,
    base: u64,
    stride: u64,
) -> Answer
    requires marks_value { sound m registers.now marks.now ≡ true }
    requires ms3_bound { ms3 < register_count matrix }
    requires seals_value { seals_fit (seals_in seals.now) ≡ true }
    ensures { WritesMemory m (Operation.store form matrix ms3 width base stride) registers.now marks.now memory.old (sealed (seals_in seals.now)) result memory.new }
{
    check_transfer(m, matrix, width)?;
    let p = tile_of(m, matrix, ms3);
    unit_transfer::store(
        form,
        registers,
        marks,
        memory,
        seals,
        Transfer {
            start: p.start,
            pitch: p.pitch,
            base: base,
            stride: stride,
            rows: p.rows,
            columns: p.columns,
            width: width,
        },
    )
}
