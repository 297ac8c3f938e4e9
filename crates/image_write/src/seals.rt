// The sealed ranges in a machine's block, as numbers of an image.
ghost use Rattle.std.specs.Prelude.{◌≡◌, true, [], ◌+◌, ◌*◌, ◌≤◌, length, take};
ghost use Rattle.std.proofs.lemmas.List.Edits.{sets};
ghost use Rattle.numbers_format.specs.Numbers.{encode_all};
ghost use Rattle.machine.specs.Faults.{seals_fit};
ghost use Rattle.unit_ranges.specs.Ranges.{count_in, seals_in};
ghost use Rattle.image.specs.Images.{bounds, seal_fields};
ghost use Rattle.image_write.specs.Parts.{count_field};

use crate::several::{numbers_size, put_numbers};
use numbers_coded::put_number;
use unit_element::Element;
use unit_ranges::{count_of, slot_at};

// Start and length of each range, one after the other.
fn bounds_of(block: &[u8]) -> [u64; 16]
    requires { seals_fit (seals_in block.now) ≡ true }
    ensures { take (2 * count_in block.now) result ≡ bounds (seals_in block.now) }
{
    let count = count_of(block);
    let mut numbers: [u64; 16] = [0; 16];
    for i in 0..count {
        let at = slot_at(i);
        numbers[2 * i] = u64::read(block, at);
        numbers[2 * i + 1] = u64::read(block, at + 8);
    }
    numbers
}

// How many bytes the number of ranges takes; one range has none.
fn count_size(count: u64) -> usize
    ensures { (result ≡ length (encode_all (count_field count) [])) × (result ≤ 10) }
{
    if count == 1 {
        return 0;
    }
    let numbers = [count];
    numbers_size(&numbers)
}

// Puts the number of ranges into the room, from a place on, and gives the place behind it.
fn put_count(room: &mut [u8], at: usize, count: u64) -> usize
    requires { at + length (encode_all (count_field count) []) ≤ length room.old }
    ensures value { result ≡ at + length (encode_all (count_field count) []) }
    ensures room_after { room.new ≡ sets room.old at (encode_all (count_field count) []) }
{
    if count == 1 {
        return at;
    }
    put_number(room, at, count)
}

// How many bytes the ranges take, with their number.
pub fn seals_size(block: &[u8]) -> usize
    requires { seals_fit (seals_in block.now) ≡ true }
    ensures { (result ≡ length (encode_all (seal_fields (seals_in block.now)) [])) × (result ≤ 170) }
{
    let count = count_of(block);
    let numbers = bounds_of(block);
    let end = 2 * count;
    count_size(count as u64) + numbers_size(&numbers[..end])
}

// Puts the ranges into the room, from a place on, with their number before them, and gives the place behind them.
pub fn put_seals(room: &mut [u8], start: usize, block: &[u8]) -> usize
    requires block_value { seals_fit (seals_in block.now) ≡ true }
    requires block_in_bounds { start + length (encode_all (seal_fields (seals_in block.now)) []) ≤ length room.old }
    ensures value { result ≡ start + length (encode_all (seal_fields (seals_in block.now)) []) }
    ensures room_after { room.new ≡ sets room.old start (encode_all (seal_fields (seals_in block.now)) []) }
{
    let count = count_of(block);
    let numbers = bounds_of(block);
    let end = 2 * count;
    let at = put_count(room, start, count as u64);
    put_numbers(room, at, &numbers[..end])
}
