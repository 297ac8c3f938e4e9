// Sizing and writing an image. What an image is, and what sizing and writing answer and leave, is defined in image/specs/. The first pass
// finds the image's length; only the second writes, so that a refusal changes nothing.
#![tactic(auto)]

ghost use Rattle.std.specs.Prelude.{◌≡◌, true, [], ◌∷◌, ◌++◌, ◌+◌, ◌≤◌, ◌<◌, length, take};
ghost use Rattle.std.proofs.lemmas.List.Edits.{sets};
ghost use Rattle.numbers_format.specs.Numbers.{encode_all};
ghost use Rattle.machine.specs.Faults.{seals_fit};
ghost use Rattle.unit_ranges.specs.Ranges.{seals_in};
ghost use Rattle.image.specs.Cells.{cells_of, runs};
ghost use Rattle.image.specs.Images.{exponent, beyond, version, fields, header_of, image_of, sound_with};
ghost use Rattle.image.specs.Writing.{size_image, size_reply, write_image, write_reply};
ghost use Rattle.image_write.specs.Parts.{plain_fields};

use image::ImageError;
use machine::Machine;
use numbers_coded::put_number;
use runs::{put_runs, tally_of};
use seals::{put_seals, seals_size};
use several::{numbers_size, put_numbers};
use unit_ranges::count_of;

mod several; // several numbers
mod runs; // the runs of marked bytes
mod seals; // the sealed ranges
mod stretch; // marks of one value

// How often n can be halved before it is 1.
fn exponent(n: u64) -> u64
    ensures { (result ≡ exponent n) × (result ≤ 64) }
{
    u64::from(n.max(1).ilog2())
}

// Whether a machine is beyond the old bounds, or has ELEN 64.
fn is_beyond(m: Machine) -> bool
    ensures { result ≡ beyond (exponent m.elen) (exponent m.rlen) (exponent m.mlen) }
{
    if exponent(m.elen) == 6 {
        return true;
    }
    if exponent(m.rlen) > 9 {
        return true;
    }
    exponent(m.mlen) > 12
}

// The version of an image and what follows it: the first `count` of these numbers.
#[derive(Clone, Copy)]
pub struct Version {
    pub numbers: [u64; 3],
    pub count: usize,
}

// The lowest version that can hold a machine.
fn version_of(m: Machine, block: &[u8]) -> Version
    requires { seals_fit (seals_in block.now) ≡ true }
    ensures { (result.count ≤ 3) × (take result.count result.numbers ≡ version (header_of m (seals_in block.now))) }
{
    if count_of(block) != 1 {
        return Version {
            numbers: [4, m.rule, exponent(m.elen)],
            count: 3,
        };
    }
    if is_beyond(m) {
        return Version {
            numbers: [3, m.rule, exponent(m.elen)],
            count: 3,
        };
    }
    if m.rule == 1 {
        return Version {
            numbers: [2, 1, 0],
            count: 2,
        };
    }
    Version {
        numbers: [1, 0, 0],
        count: 1,
    }
}

// How many bytes the version of an image takes, with what follows it.
fn version_size(m: Machine, block: &[u8]) -> usize
    requires { seals_fit (seals_in block.now) ≡ true }
    ensures { (result ≡ length (encode_all (version (header_of m (seals_in block.now))) [])) × (result ≤ 30) }
{
    let version = version_of(m, block);
    let numbers = version.numbers;
    let count = version.count;
    numbers_size(&numbers[..count])
}

// Puts the version of an image into the room, with what follows it, and gives the place behind them.
fn put_version(room: &mut [u8], m: Machine, block: &[u8]) -> usize
    requires block_value { seals_fit (seals_in block.now) ≡ true }
    requires block_in_bounds { length (encode_all (version (header_of m (seals_in block.now))) []) ≤ length room.old }
    ensures value { result ≡ length (encode_all (version (header_of m (seals_in block.now))) []) }
    ensures room_after { room.new ≡ sets room.old 0 (encode_all (version (header_of m (seals_in block.now))) []) }
{
    let version = version_of(m, block);
    let numbers = version.numbers;
    let count = version.count;
    put_numbers(room, 0, &numbers[..count])
}

// The fields of an image before the ranges.
fn fields_of(m: Machine) -> [u64; 6]
    ensures { result ≡ plain_fields (header_of m []) }
{
    [
        exponent(m.rlen),
        exponent(m.mlen),
        m.mtype,
        m.tile_m,
        m.tile_k,
        m.tile_n,
    ]
}

// How many bytes they take.
fn fields_size(m: Machine) -> usize
    ensures { (result ≡ length (encode_all (plain_fields (header_of m [])) [])) × (result ≤ 60) }
{
    let numbers = fields_of(m);
    numbers_size(&numbers)
}

// Puts them into the room, from a place on, and gives the place behind them.
fn put_fields(room: &mut [u8], start: usize, m: Machine) -> usize
    requires { start + length (encode_all (plain_fields (header_of m [])) []) ≤ length room.old }
    ensures value { result ≡ start + length (encode_all (plain_fields (header_of m [])) []) }
    ensures room_after { room.new ≡ sets room.old start (encode_all (plain_fields (header_of m [])) []) }
{
    let numbers = fields_of(m);
    put_numbers(room, start, &numbers)
}

// How many bytes the fields and the number of runs take.
fn header_size(m: Machine, block: &[u8], count: u64) -> usize
    requires { seals_fit (seals_in block.now) ≡ true }
    ensures { (result ≡ length (encode_all (fields (header_of m (seals_in block.now)) ++ (count ∷ [])) [])) × (result ≤ 300) }
{
    let last = [count];
    fields_size(m) + seals_size(block) + numbers_size(&last)
}

// Puts the fields and the number of runs into the room, from a place on, and gives the place behind them.
fn put_header(room: &mut [u8], start: usize, m: Machine, block: &[u8], count: u64) -> usize
    requires block_value { seals_fit (seals_in block.now) ≡ true }
    requires count_in_bounds { start + length (encode_all (fields (header_of m (seals_in block.now)) ++ (count ∷ [])) []) ≤ length room.old }
    ensures value { result ≡ start + length (encode_all (fields (header_of m (seals_in block.now)) ++ (count ∷ [])) []) }
    ensures room_after { room.new ≡ sets room.old start (encode_all (fields (header_of m (seals_in block.now)) ++ (count ∷ [])) []) }
{
    let first = put_fields(room, start, m);
    let last = put_seals(room, first, block);
    put_number(room, last, count)
}

// The number of runs of a machine, and the length of its image.
#[derive(Clone, Copy)]
pub struct Measure {
    pub count: u64,
    pub size: usize,
}

// Measures the image of a machine that is not at fault.
fn measure_of(m: Machine, block: &[u8], registers: &[u8], marks: &[u8]) -> Measure
    requires { sound_with m (seals_in block.now) registers.now marks.now ≡ true }
    ensures count_value { result.count ≡ length (runs (cells_of registers.now marks.now)) }
    ensures size_value { result.size ≡ length (image_of m (seals_in block.now) registers.now marks.now) }
{
    let tally = tally_of(marks);
    let count = tally.runs;
    let bytes = tally.bytes;
    Measure {
        count: count,
        size: version_size(m, block) + header_size(m, block, count) + bytes,
    }
}

// Writes the image of a machine that is not at fault, with so many runs, into room that it fits.
fn put_image(m: Machine, block: &[u8], count: u64, registers: &[u8], marks: &[u8], room: &mut [u8])
    requires marks_value { sound_with m (seals_in block.now) registers.now marks.now ≡ true }
    requires count_value { count ≡ length (runs (cells_of registers.now marks.now)) }
    requires marks_in_bounds { length (image_of m (seals_in block.now) registers.now marks.now) ≤ length room.old }
    ensures { room.new ≡ sets room.old 0 (image_of m (seals_in block.now) registers.now marks.now) }
{
    let start = put_version(room, m, block);
    let at = put_header(room, start, m, block, count);
    put_runs(room, at, registers, marks);
}

// The length of the image of a machine with the ranges in its block.
pub fn image_size(
    m: Machine,
    block: &[u8],
    registers: &[u8],
    marks: &[u8],
) -> Result<u64, ImageError>
    ensures { size_reply result ≡ size_image m (seals_in block.now) registers.now marks.now }
{
    if !unit_faults::is_sound(m, block, registers, marks) {
        return Err(ImageError::BadArguments);
    }
    let measure = measure_of(m, block, registers, marks);
    Ok(measure.size as u64)
}

// Writes the image of a machine with the ranges in its block into the room, and returns its length. Refused, it changes nothing.
pub fn write_image(
    m: Machine,
    block: &[u8],
    registers: &[u8],
    marks: &[u8],
    room: &mut [u8],
) -> Result<u64, ImageError>
    ensures { write_reply result room.new ≡ write_image m (seals_in block.now) registers.now marks.now room.old }
{
    if !unit_faults::is_sound(m, block, registers, marks) {
        return Err(ImageError::BadArguments);
    }
    let measure = measure_of(m, block, registers, marks);
    if room.len() < measure.size {
        return Err(ImageError::NoRoom);
    }
    put_image(m, block, measure.count, registers, marks, room);
    Ok(measure.size as u64)
}
