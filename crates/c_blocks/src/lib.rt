// Numbers as a host in C passes them, in blocks of bytes. The layout is that of include/bodlarina.h; what lies where is defined in specs/.
#![tactic(auto)]

ghost use Rattle.std.specs.Prelude.{◌≡◌, true, ◌*◌, ◌≤◌, length, get_or};
ghost use Rattle.numbers.specs.Upto.{upto};
ghost use Rattle.numbers.specs.Tile.{put_le};
ghost use Rattle.machine.specs.Answers.{reply};
ghost use Rattle.machine.specs.Geometry.{range};
ghost use Rattle.machine.specs.Starting.{ranges, paired};
ghost use Rattle.unit_ranges.specs.Ranges.{put_range, put_seals};
ghost use Rattle.c_blocks.specs.Blocks.{machine_bytes, machine_of, put_machine, SameMachine, packed};

use machine::{Answer, Machine};
use unit_element::Element;
use unit_ranges::{clear_slots, put_range};

// The bytes of the machine's block.
pub const MACHINE_BYTES: usize = 200;

// The machine's numbers out of their block.
pub fn machine_of(block: &[u8]) -> Machine
    requires { length block.now ≡ machine_bytes }
    ensures { result ≡ machine_of block.now }
{
    Machine {
        rlen: u64::read(block, 0),
        mlen: u64::read(block, 8),
        mtype: u64::read(block, 16),
        tile_m: u64::read(block, 24),
        tile_k: u64::read(block, 32),
        tile_n: u64::read(block, 40),
        rule: u64::read(block, 64),
        elen: u64::read(block, 72),
    }
}

// The lengths and mtype.
fn put_lengths(block: &mut [u8], m: Machine)
    requires { length block.old ≡ machine_bytes }
    ensures { block.new ≡ put_le 16 8 m.mtype (put_le 8 8 m.mlen (put_le 0 8 m.rlen block.old)) }
{
    u64::write(block, 0, m.rlen);
    u64::write(block, 8, m.mlen);
    u64::write(block, 16, m.mtype);
}

// The machine's numbers into their block.
pub fn put_machine(block: &mut [u8], m: Machine)
    requires { length block.old ≡ machine_bytes }
    ensures { block.new ≡ put_machine m block.old }
{
    put_lengths(block, m);
    u64::write(block, 24, m.tile_m);
    u64::write(block, 32, m.tile_k);
    u64::write(block, 40, m.tile_n);
    u64::write(block, 64, m.rule);
    u64::write(block, 72, m.elen);
}

// The numbers of a machine that steps change, into its block, which has the others already.
pub fn put_state(block: &mut [u8], m: Machine)
    requires block_len { length block.old ≡ machine_bytes }
    requires same_machine { SameMachine m (machine_of block.old) }
    ensures { block.new ≡ put_machine m block.old }
{
    u64::write(block, 16, m.mtype);
    u64::write(block, 24, m.tile_m);
    u64::write(block, 32, m.tile_k);
    u64::write(block, 40, m.tile_n);
}

// Writes the ranges that a start is given, start and length of each in turn, over the first slots.
fn put_ranges(block: &mut [u8], seals: &[u64], count: usize)
    requires block_len { length block.old ≡ machine_bytes }
    requires count_bound { (count ≤ 8) × (2 * count ≤ length seals.now) }
    ensures { block.new ≡ upto count (λ i. put_range i (get_or (ranges seals.now) i (range 0 0))) block.old }
{
    for i in 0..count {
        let start = seals[2 * i];
        let size = seals[2 * i + 1];
        put_range(block, i, start, size);
    }
}

// The ranges that a start is given, into the machine's block.
pub fn put_seals(block: &mut [u8], seals: &[u64])
    requires block_len { length block.old ≡ machine_bytes }
    requires seals_value { paired seals.now ≡ true }
    requires seals_len_bound { length seals.now ≤ 16 }
    ensures { block.new ≡ put_seals (ranges seals.now) block.old }
{
    let count = seals.len() / 2;
    u64::write(block, 80, count as u64);
    put_ranges(block, seals, count);
    clear_slots(block, count);
}

// An answer's number, with row and column in the bits above it.
pub fn packed(answer: Answer) -> u64
    ensures { result ≡ packed (reply answer) }
{
    let reply = unit_answers::reply_of(answer);
    reply.number + reply.row % 65536 * 65536 + reply.column % 65536 * 0x1_0000_0000
}
