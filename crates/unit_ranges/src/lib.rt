// The sealed ranges of a machine, as they lie in its block of bytes. What lies where is defined in specs/.
#![tactic(auto)]

ghost use Rattle.std.specs.Prelude.{◌≡◌, true, [], ◌∷◌, ◌++◌, suc, ◌<◌, ◌≤◌, ◌+◌, ◌-◌, ◌*◌, ◌^◌, length};
ghost use Rattle.numbers.specs.Upto.{upto};
ghost use Rattle.machine.specs.Tests.{all, within};
ghost use Rattle.machine.specs.Geometry.{range, sealed};
ghost use Rattle.machine.specs.Memory.{row_at, inside, rows_miss};
ghost use Rattle.machine.specs.Faults.{seals_fit};
ghost use Rattle.unit_ranges.specs.Ranges.{block_bytes, slot_at, count_in, seals_in, put_range, put_seals};
ghost use Rattle.unit_ranges.specs.Parts.{slot_empty, slot_sound, Around, Spanned};

use std::ops::Range;
use unit_address::{as_signed, misses_range, row_address, rows_miss};
use unit_element::Element;
use unit_start::seal_ends;

// The bytes of a machine's block.
pub const BLOCK_BYTES: usize = 200;

// Where slot i lies.
pub fn slot_at(i: usize) -> usize
    requires { i < 8 }
    ensures { (result ≡ slot_at i) × (result + 16 ≤ block_bytes) }
{
    if i == 0 { 48 } else { 72 + 16 * i }
}

// Whether slot i of a block with so many ranges has one that ends where it may, or is 0.
fn slot_sound(block: &[u8], count: u64, i: usize) -> bool
    requires block_len { length block.now ≡ block_bytes }
    requires i_bound { i < 8 }
    ensures { result ≡ slot_sound block.now count i }
{
    let at = slot_at(i);
    let start = u64::read(block, at);
    let size = u64::read(block, at + 8);
    if (i as u64) < count {
        seal_ends(start, size)
    } else {
        start == 0 && size == 0
    }
}

// Whether each slot is so.
fn slots_sound(block: &[u8], count: u64) -> bool
    requires { length block.now ≡ block_bytes }
    ensures { result ≡ all 8 (slot_sound block.now count) }
{
    for i in 0..8 {
        if !slot_sound(block, count, i) {
            return false;
        }
    }
    true
}

// Whether the slots behind the first are 0: their bits together are.
fn others_empty(block: &[u8]) -> bool
    requires { length block.now ≡ block_bytes }
    ensures { result ≡ all 7 (λ i. slot_empty block.now (suc i)) }
{
    let mut any = 0;
    for i in 0..7 {
        let at = 88 + 16 * i;
        any |= u64::read(block, at) | u64::read(block, at + 8);
    }
    any == 0
}

// Whether each slot of a block with one range is so.
fn one_sound(block: &[u8]) -> bool
    requires { length block.now ≡ block_bytes }
    ensures { result ≡ all 8 (slot_sound block.now 1) }
{
    let start = u64::read(block, 48);
    let size = u64::read(block, 56);
    seal_ends(start, size) && others_empty(block)
}

// Whether each slot of a block without a range is so.
fn none_sound(block: &[u8]) -> bool
    requires { length block.now ≡ block_bytes }
    ensures { result ≡ all 8 (slot_sound block.now 0) }
{
    let start = u64::read(block, 48);
    let size = u64::read(block, 56);
    start == 0 && size == 0 && others_empty(block)
}

// Whether a machine can hold the ranges in its block. None and one, the most common numbers, are looked at without a loop over the slots.
pub fn is_fit(block: &[u8]) -> bool
    ensures { result ≡ seals_fit (seals_in block.now) }
{
    if block.len() != BLOCK_BYTES {
        return false;
    }
    let count = u64::read(block, 80);
    if count == 1 {
        return one_sound(block);
    }
    if count == 0 {
        return none_sound(block);
    }
    if count > 8 {
        return false;
    }
    slots_sound(block, count)
}

// How many ranges a block has.
pub fn count_of(block: &[u8]) -> usize
    requires { seals_fit (seals_in block.now) ≡ true }
    ensures { (result ≡ count_in block.now) × (result ≤ 8) }
{
    u64::read(block, 80) as usize
}

// From the first byte of any range to behind the last.
fn hull_of(block: &[u8], count: usize) -> Range<u64>
    requires block_value { seals_fit (seals_in block.now) ≡ true }
    requires count_value { count ≡ count_in block.now }
    ensures { Around block.now count result.start result.end }
{
    let mut low = u64::MAX;
    let mut high = 0u64;
    for i in 0..count {
        let at = slot_at(i);
        let start = u64::read(block, at);
        let end = start + u64::read(block, at + 8);
        low = low.min(start);
        high = high.max(end);
    }
    low..high
}

// Where the last row starts, of rows that lie in memory.
fn last_row(len: usize, base: usize, stride: u64, rows: usize, bytes: usize) -> usize
    requires bytes_value { inside len base stride rows bytes ≡ true }
    requires len_bound { len < 2 ^ 63 }
    requires rows_bound { rows < 2 ^ 63 }
    requires rows_nonzero { (0 < rows) × (0 < bytes) }
    ensures { (result ≡ row_at base stride (rows - 1)) × (result + bytes ≤ len) }
{
    row_address(base, as_signed(stride), rows - 1)
}

// Whether the rows, which lie in memory, miss a range: no row leaves the n bytes from p on, so a range that misses these is missed.
fn range_missed(
    len: usize,
    start: u64,
    size: u64,
    p: usize,
    n: usize,
    base: usize,
    stride: u64,
    rows: usize,
    bytes: usize,
) -> bool
    requires bytes_value { inside len base stride rows bytes ≡ true }
    requires len_bound { len < 2 ^ 63 }
    requires bytes_bound { rows * bytes < 2 ^ 63 }
    requires spanned { Spanned p n base stride rows bytes }
    requires n_bound { p + n < 2 ^ 64 }
    ensures { result ≡ rows_miss (within start size) base stride rows bytes }
{
    if misses_range(start, size, p, n) {
        return true;
    }
    rows_miss(len, start, size, base, stride, rows, bytes)
}

// Whether no byte of the rows, which lie in memory, is sealed: range by range. No row leaves the n bytes from p on.
fn each_missed(
    len: usize,
    block: &[u8],
    p: usize,
    n: usize,
    base: usize,
    stride: u64,
    rows: usize,
    bytes: usize,
) -> bool
    requires block_value { seals_fit (seals_in block.now) ≡ true }
    requires bytes_value { inside len base stride rows bytes ≡ true }
    requires len_bound { len < 2 ^ 63 }
    requires bytes_bound { rows * bytes < 2 ^ 63 }
    requires spanned { Spanned p n base stride rows bytes }
    requires n_bound { p + n < 2 ^ 64 }
    ensures { result ≡ rows_miss (sealed (seals_in block.now)) base stride rows bytes }
{
    for i in 0..count_of(block) {
        let at = slot_at(i);
        let start = u64::read(block, at);
        let size = u64::read(block, at + 8);
        if !range_missed(len, start, size, p, n, base, stride, rows, bytes) {
            return false;
        }
    }
    true
}

// The same for any rows that lie in memory.
fn apart_missed(
    len: usize,
    block: &[u8],
    base: usize,
    stride: u64,
    rows: usize,
    bytes: usize,
) -> bool
    requires block_value { seals_fit (seals_in block.now) ≡ true }
    requires bytes_value { inside len base stride rows bytes ≡ true }
    requires len_bound { len < 2 ^ 63 }
    requires bytes_bound { rows * bytes < 2 ^ 63 }
    ensures { result ≡ rows_miss (sealed (seals_in block.now)) base stride rows bytes }
{
    if rows == 0 {
        return true;
    }
    if bytes == 0 {
        return true;
    }
    let last = last_row(len, base, stride, rows, bytes);
    let p = base.min(last);
    let high = base.max(last);
    let n = high - p + bytes;
    each_missed(len, block, p, n, base, stride, rows, bytes)
}

// Whether no byte of the rows, which lie in memory, is sealed: all ranges at once, as far as that tells.
pub fn several_missed(
    len: usize,
    block: &[u8],
    base: usize,
    stride: u64,
    rows: usize,
    bytes: usize,
) -> bool
    requires block_value { seals_fit (seals_in block.now) ≡ true }
    requires bytes_value { inside len base stride rows bytes ≡ true }
    requires len_bound { len < 2 ^ 63 }
    requires bytes_bound { rows * bytes < 2 ^ 63 }
    ensures { result ≡ rows_miss (sealed (seals_in block.now)) base stride rows bytes }
{
    let count = count_of(block);
    if count == 0 {
        return true;
    }
    let hull = hull_of(block, count);
    let size = hull.end - hull.start;
    if rows_miss(len, hull.start, size, base, stride, rows, bytes) {
        return true;
    }
    apart_missed(len, block, base, stride, rows, bytes)
}

// Whether no byte of the rows, which lie in memory, is sealed. One range, the most common number, needs no loop.
pub fn rows_unsealed(
    len: usize,
    block: &[u8],
    base: usize,
    stride: u64,
    rows: usize,
    bytes: usize,
) -> bool
    requires block_value { seals_fit (seals_in block.now) ≡ true }
    requires bytes_value { inside len base stride rows bytes ≡ true }
    requires len_bound { len < 2 ^ 63 }
    requires bytes_bound { rows * bytes < 2 ^ 63 }
    ensures { result ≡ rows_miss (sealed (seals_in block.now)) base stride rows bytes }
{
    let count = count_of(block);
    if count == 0 {
        return true;
    }
    if count != 1 {
        return several_missed(len, block, base, stride, rows, bytes);
    }
    let start = u64::read(block, 48);
    let size = u64::read(block, 56);
    rows_miss(len, start, size, base, stride, rows, bytes)
}

// Writes a range over slot i.
pub fn put_range(block: &mut [u8], i: usize, start: u64, size: u64)
    requires block_len { length block.old ≡ block_bytes }
    requires i_bound { i < 8 }
    ensures { block.new ≡ put_range i (range start size) block.old }
{
    let at = slot_at(i);
    u64::write(block, at, start);
    u64::write(block, at + 8, size);
}

// Clears the slots from slot `count` on.
pub fn clear_slots(block: &mut [u8], count: usize)
    requires block_len { length block.old ≡ block_bytes }
    requires count_bound { count ≤ 8 }
    ensures { block.new ≡ upto (8 - count) (λ i. put_range (count + i) (range 0 0)) block.old }
{
    for i in count..8 {
        put_range(block, i, 0, 0);
    }
}

// Writes a range behind the others, of which there are fewer than eight.
pub fn add_range(block: &mut [u8], start: u64, size: u64)
    requires block_value { seals_fit (seals_in block.old) ≡ true }
    requires block_len_bound { length (seals_in block.old) < 8 }
    ensures { block.new ≡ put_seals (seals_in block.old ++ (range start size ∷ [])) block.old }
{
    let count = count_of(block);
    u64::write(block, 80, count as u64 + 1);
    put_range(block, count, start, size);
}
