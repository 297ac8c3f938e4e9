// A step with the scalars in a block of bytes.
#![tactic(auto)]

ghost use Rattle.std.specs.Prelude.{◌≡◌, cond, ◌*◌, ◌<◌, length, eqb};
ghost use Rattle.numbers.specs.Tile.{put_le};
ghost use Rattle.machine.specs.Geometry.{bench_of};
ghost use Rattle.machine.specs.Step.{stepped, vector_stepped_as};
ghost use Rattle.machine.specs.Vectors.{vectors_of};
ghost use Rattle.unit_ranges.specs.Ranges.{seals_in};
ghost use Rattle.c_blocks.specs.Blocks.{scalar_bytes};
ghost use Rattle.c_scalars.specs.ScalarBlock.{step_block};

use machine::{Machine, Refusal};
use unit_element::Element;

// A value into its slot of the scalars' block. Slot 0 is never written.
fn put_scalar(scalars: &mut [u8], slot: usize, value: u64)
    requires scalars_len { length scalars.old ≡ scalar_bytes }
    requires slot_bound { slot < 32 }
    ensures { scalars.new ≡ cond (eqb slot 0) scalars.old (put_le (slot * 8) 8 value scalars.old) }
{
    if slot == 0 {
        return;
    }
    u64::write(scalars, slot * 8, value);
}

// A step with the scalars in their block. Only the slots in the word's fields of rd, rs1 and rs2 are read out of it, and only that of
// rd is written back, if it is not slot 0: no word uses another slot, and a word without such a field leaves the slot as it was.
pub fn step_block(
    m: Machine,
    seals: &[u8],
    registers: &mut [u8],
    marks: &mut [u8],
    scalars: &mut [u8],
    memory: &mut [u8],
    vectors: &mut [u8],
    group: u64,
    word: u32,
) -> Result<Machine, Refusal>
    requires { length scalars.old ≡ scalar_bytes }
    ensures { vector_stepped_as (stepped m result) (seals_in seals.now) registers.new marks.new scalars.new memory.new vectors.new
        ≡ step_block word scalars.old (vectors_of vectors.old group) (bench_of m (seals_in seals.now) registers.old marks.old memory.old) }
{
    let rd = unit_decode::low_field(word);
    let rs1 = unit_decode::middle_field(word);
    let rs2 = unit_decode::high_field(word);
    let mut values = [0u64; 32];
    values[rd] = u64::read(scalars, rd * 8);
    values[rs1] = u64::read(scalars, rs1 * 8);
    values[rs2] = u64::read(scalars, rs2 * 8);
    let stepped = unit_step::step(
        m,
        seals,
        registers,
        marks,
        &mut values,
        memory,
        vectors,
        group,
        word,
    );
    put_scalar(scalars, rd, values[rd]);
    stepped
}
