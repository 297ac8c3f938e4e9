// One instruction word: the checks in the order 8, then 10, 11, 1, 12, then 2 to 6, 13, 7, and then the effect.
#![tactic(auto)]

ghost use Rattle.std.specs.Prelude.{◌≡◌, true, ◌<◌, ◌≤◌, ◌%◌, ◌^◌, ◌+◌, eqb};
ghost use Rattle.numbers.specs.Reduce.{reduce, signed};
ghost use Rattle.machine.specs.Setting.{sew};
ghost use Rattle.machine.specs.Faults.{sound, seals_fit, thirty_two};
ghost use Rattle.unit_ranges.specs.Ranges.{seals_in};
ghost use Rattle.machine.specs.Geometry.{bench_of};
ghost use Rattle.machine.specs.Tests.{is_in};
ghost use Rattle.machine.specs.Vectors.{vectors_of, group_sizes, vectors_fit};
ghost use Rattle.machine.specs.Step.{stepped, vector_step, vector_stepped_as};
ghost use Rattle.machine.specs.Refusals.{word_answer};
ghost use Rattle.machine.specs.ArithmeticWords.{is_zero};
ghost use Rattle.unit_settings.specs.Parts.{ours};
ghost use Rattle.unit_step.specs.Parts.{Multiplier, Decoded, carried_beside};

use machine::{Answer, Instruction, Machine, Refusal, Wrong};
use unit_execute::reckoning::{combine, float_multiply, multiply, scale};
use unit_execute::transfers::{load, store};
use unit_faults::is_sound;
use unit_moves::move_slice;
use unit_scalars::read_scalar;
use unit_settings::{set_size, set_tile, set_type};

// What a word is refused for that is refused for what it is.
fn word_answer(wrong: Wrong) -> Refusal
    ensures { result ≡ word_answer wrong }
{
    match wrong {
        Wrong::Opcode => Refusal::WrongOpcode,
        Wrong::LeftOut => Refusal::LeftOutWord,
        Wrong::Unlisted => Refusal::IllegalWord,
        Wrong::Register => Refusal::WrongRegister,
    }
}

// The residue at 64 bits of the signed number that x stands for at the modulus half + half.
fn sign_extend(x: u64, half: u64) -> u64
    requires { (x < half + half) × (half ≤ 0x8000_0000) }
    ensures { (result ≡ reduce (2 ^ 64) (signed (half + half) x)) × (is_zero (signed (half + half) x) ≡ eqb result 0) }
{
    if x < half {
        return x;
    }
    x + (0xffff_ffff_ffff_ffff - (half + half - 1))
}

// The low SEW bits of a scalar as a multiplier.
fn multiplier(mtype: u64, value: u64) -> u64
    requires { mtype % 8 < 4 }
    ensures { Multiplier (signed (256 ^ sew mtype) (value % 256 ^ sew mtype)) result }
{
    let msew = mtype % 8;
    if msew == 0 {
        return sign_extend(value % 256, 128);
    }
    if msew == 1 {
        return sign_extend(value % 65536, 32768);
    }
    if msew == 2 {
        return sign_extend(value % 0x1_0000_0000, 0x8000_0000);
    }
    value
}

// The machine m as it is, where the answer is that it is done.
fn leaving(m: Machine, answer: Answer) -> Result<Machine, Refusal>
    ensures { stepped m result ≡ (record { answer = answer; machine = m }) }
{
    answer?;
    Ok(m)
}

// Carries out an instruction in a state that is not at fault.
fn perform(
    m: Machine,
    seals: &[u8],
    registers: &mut [u8],
    marks: &mut [u8],
    scalars: &mut [u64],
    memory: &mut [u8],
    vectors: &mut [u8],
    group: u64,
    instruction: Instruction,
) -> Result<Machine, Refusal>
    requires marks_value { sound m registers.old marks.old ≡ true }
    requires scalars_value { thirty_two scalars.old ≡ true }
    requires group_value { vectors_fit (vectors_of vectors.old group) ≡ true }
    requires decoded { Decoded instruction }
    requires seals_value { seals_fit (seals_in seals.now) ≡ true }
    ensures { vector_stepped_as (stepped m result) (seals_in seals.now) registers.new marks.new scalars.new memory.new vectors.new
        ≡ carried_beside (vectors_of vectors.old group) (ours m) instruction scalars.old (bench_of m (seals_in seals.now) registers.old marks.old memory.old) }
{
    match instruction {
        Instruction::Illegal { wrong } => Err(word_answer(wrong)),
        Instruction::SetTypeImmediate { rd, immediate } => {
            Ok(set_type(m, scalars, rd, immediate))
        }
        Instruction::SetType { rd, rs1 } => {
            let value = read_scalar(scalars, rs1);
            Ok(set_type(m, scalars, rd, value))
        }
        Instruction::SetTileImmediate {
            dimension,
            rd,
            immediate,
        } => set_size(m, scalars, dimension, rd, immediate),
        Instruction::SetTile { dimension, rd, rs1 } => set_tile(m, scalars, dimension, rd, rs1),
        Instruction::Load {
            form,
            matrix,
            width,
            md,
            rs1,
            rs2,
        } => {
            let base = read_scalar(scalars, rs1);
            let stride = read_scalar(scalars, rs2);
            leaving(
                m,
                load(
                    m, registers, marks, memory, form, matrix, width, md, base, stride,
                ),
            )
        }
        Instruction::Store {
            form,
            matrix,
            width,
            ms3,
            rs1,
            rs2,
        } => {
            let base = read_scalar(scalars, rs1);
            let stride = read_scalar(scalars, rs2);
            leaving(
                m,
                store(
                    m, seals, registers, marks, memory, form, matrix, width, ms3, base, stride,
                ),
            )
        }
        Instruction::Multiply {
            factor,
            md,
            ms1,
            ms2,
        } => leaving(m, multiply(m, registers, marks, factor, md, ms1, ms2)),
        Instruction::Combine {
            sum,
            factor,
            md,
            ms1,
        } => leaving(m, combine(m, registers, marks, sum, factor, md, ms1)),
        Instruction::Scale {
            factor,
            md,
            ms1,
            rs2,
        } => {
            let by = multiplier(m.mtype, read_scalar(scalars, rs2));
            leaving(m, scale(m, registers, marks, factor, md, ms1, by))
        }
        Instruction::ScaleImmediate {
            factor,
            md,
            ms1,
            immediate,
        } => {
            let by = sign_extend(immediate, 16);
            leaving(m, scale(m, registers, marks, factor, md, ms1, by))
        }
        Instruction::FloatMultiply { md, ms1, ms2 } => leaving(
            m,
            float_multiply(m, registers, marks, md, ms1, ms2),
        ),
        Instruction::MoveOut { form, vd, ms1, rs2 } => {
            let first = read_scalar(scalars, rs2);
            leaving(
                m,
                move_slice(
                    m, registers, marks, vectors, group, false, form, ms1, vd, first,
                ),
            )
        }
        Instruction::MoveIn { form, md, vs1, rs2 } => {
            let first = read_scalar(scalars, rs2);
            leaving(
                m,
                move_slice(
                    m, registers, marks, vectors, group, true, form, md, vs1, first,
                ),
            )
        }
    }
}

// Whether there is such a group size.
fn is_group(group: u64) -> bool
    ensures { result ≡ is_in group group_sizes }
{
    match group {
        1 => true,
        2 => true,
        4 => true,
        8 => true,
        _ => false,
    }
}

// Steps one instruction word of a machine with the ranges in its block, beside a vector file with a group size.
pub fn step(
    m: Machine,
    seals: &[u8],
    registers: &mut [u8],
    marks: &mut [u8],
    scalars: &mut [u64],
    memory: &mut [u8],
    vectors: &mut [u8],
    group: u64,
    word: u32,
) -> Result<Machine, Refusal>
    ensures { vector_stepped_as (stepped m result) (seals_in seals.now) registers.new marks.new scalars.new memory.new vectors.new
        ≡ vector_step word scalars.old (vectors_of vectors.old group) (bench_of m (seals_in seals.now) registers.old marks.old memory.old) }
{
    if vectors.len() != 512 {
        return Err(Refusal::BadArguments);
    }
    if !is_group(group) {
        return Err(Refusal::BadArguments);
    }
    if !is_sound(m, seals, registers, marks) {
        return Err(Refusal::BadArguments);
    }
    if scalars.len() != 32 {
        return Err(Refusal::BadArguments);
    }
    perform(
        m,
        seals,
        registers,
        marks,
        scalars,
        memory,
        vectors,
        group,
        unit_decode::decode(word),
    )
}
