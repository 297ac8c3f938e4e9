// A word to its instruction, by a table that has the numbers of the listing.
#![tactic(auto)]

ghost use Rattle.std.specs.Prelude.{◌≡◌, cond, [], ◌∷◌, ◌-◌, ◌<◌, ◌≤◌, ltb};
ghost use Rattle.machine.specs.Tests.{every};
ghost use Rattle.machine.specs.Listing.{field7, field15, field20, immediate13, listing, decode, ranged};
ghost use Rattle.machine.specs.Geometry.{register_count};
ghost use Rattle.machine.specs.declared.Form.TheVariants.{Plain, Transposed};
ghost use Rattle.machine.specs.declared.Instruction.TheVariants.{SetTypeImmediate, SetType, SetTileImmediate, SetTile, Load, Store, Multiply, Combine, Scale, ScaleImmediate, FloatMultiply, MoveOut, MoveIn};
ghost use Rattle.unit_table.specs.Table.{entry_of, rest_right, meant, numbered, fixes_zero};

use machine::{Dimension, Factor, Form, Instruction, Matrix, Sum, Wrong};
use unit_table::entry;

// Bits 11..7: rd, md or ms3.
pub fn low_field(word: u32) -> usize
    ensures { result ≡ field7 word }
{
    (word / 128 % 32) as usize
}

// Bits 19..15: rs1 or ms1.
pub fn middle_field(word: u32) -> usize
    ensures { result ≡ field15 word }
{
    (word / 32768 % 32) as usize
}

// Bits 24..20: rs2, ms2 or an immediate.
pub fn high_field(word: u32) -> usize
    ensures { result ≡ field20 word }
{
    (word / 0x10_0000 % 32) as usize
}

// Bits 27..15.
fn immediate(word: u32) -> u64
    ensures { result ≡ immediate13 word }
{
    (word / 32768 % 8192) as u64
}

fn set_type_immediate(word: u32) -> Instruction
    ensures { result ≡ SetTypeImmediate (field7 word) (immediate13 word) }
{
    Instruction::SetTypeImmediate {
        rd: low_field(word),
        immediate: immediate(word),
    }
}

fn set_type(word: u32) -> Instruction
    ensures { result ≡ SetType (field7 word) (field15 word) }
{
    Instruction::SetType {
        rd: low_field(word),
        rs1: middle_field(word),
    }
}

fn set_tile_immediate(word: u32, dimension: Dimension) -> Instruction
    ensures { result ≡ SetTileImmediate dimension (field7 word) (immediate13 word) }
{
    Instruction::SetTileImmediate {
        dimension: dimension,
        rd: low_field(word),
        immediate: immediate(word),
    }
}

fn set_tile(word: u32, dimension: Dimension) -> Instruction
    ensures { result ≡ SetTile dimension (field7 word) (field15 word) }
{
    Instruction::SetTile {
        dimension: dimension,
        rd: low_field(word),
        rs1: middle_field(word),
    }
}

fn load(word: u32, form: Form, matrix: Matrix, count: usize, width: usize) -> Instruction
    requires { count ≡ register_count matrix }
    ensures { result ≡ ranged (Load form matrix width (field7 word) (field15 word) (field20 word)) }
{
    let md = low_field(word);
    if md >= count {
        return Instruction::Illegal {
            wrong: Wrong::Register,
        };
    }
    Instruction::Load {
        form: form,
        matrix: matrix,
        width: width,
        md: md,
        rs1: middle_field(word),
        rs2: high_field(word),
    }
}

fn store(word: u32, form: Form, matrix: Matrix, count: usize, width: usize) -> Instruction
    requires { count ≡ register_count matrix }
    ensures { result ≡ ranged (Store form matrix width (field7 word) (field15 word) (field20 word)) }
{
    let ms3 = low_field(word);
    if ms3 >= count {
        return Instruction::Illegal {
            wrong: Wrong::Register,
        };
    }
    Instruction::Store {
        form: form,
        matrix: matrix,
        width: width,
        ms3: ms3,
        rs1: middle_field(word),
        rs2: high_field(word),
    }
}

// Whether these are an accumulator and two tile registers.
pub fn are_registers(md: usize, ms1: usize, ms2: usize) -> bool
    ensures { result ≡ every (ltb md 2 ∷ ltb ms1 8 ∷ ltb ms2 8 ∷ []) }
{
    if md >= 2 {
        return false;
    }
    if ms1 >= 8 {
        return false;
    }
    ms2 < 8
}

fn multiply(word: u32, factor: Factor) -> Instruction
    ensures { result ≡ ranged (Multiply factor (field7 word) (field15 word) (field20 word)) }
{
    let md = low_field(word);
    let ms1 = middle_field(word);
    let ms2 = high_field(word);
    if !are_registers(md, ms1, ms2) {
        return Instruction::Illegal {
            wrong: Wrong::Register,
        };
    }
    Instruction::Multiply {
        factor: factor,
        md: md,
        ms1: ms1,
        ms2: ms2,
    }
}

fn float_multiply(word: u32) -> Instruction
    ensures { result ≡ ranged (FloatMultiply (field7 word) (field15 word) (field20 word)) }
{
    let md = low_field(word);
    let ms1 = middle_field(word);
    let ms2 = high_field(word);
    if !are_registers(md, ms1, ms2) {
        return Instruction::Illegal {
            wrong: Wrong::Register,
        };
    }
    Instruction::FloatMultiply {
        md: md,
        ms1: ms1,
        ms2: ms2,
    }
}

fn combine(word: u32, sum: Sum, factor: Factor) -> Instruction
    ensures { result ≡ ranged (Combine sum factor (field7 word) (field15 word)) }
{
    let md = low_field(word);
    let ms1 = middle_field(word);
    if md >= 2 {
        return Instruction::Illegal {
            wrong: Wrong::Register,
        };
    }
    if ms1 >= 2 {
        return Instruction::Illegal {
            wrong: Wrong::Register,
        };
    }
    Instruction::Combine {
        sum: sum,
        factor: factor,
        md: md,
        ms1: ms1,
    }
}

fn scale(word: u32, factor: Factor) -> Instruction
    ensures { result ≡ ranged (Scale factor (field7 word) (field15 word) (field20 word)) }
{
    let md = low_field(word);
    let ms1 = middle_field(word);
    if md >= 2 {
        return Instruction::Illegal {
            wrong: Wrong::Register,
        };
    }
    if ms1 >= 2 {
        return Instruction::Illegal {
            wrong: Wrong::Register,
        };
    }
    Instruction::Scale {
        factor: factor,
        md: md,
        ms1: ms1,
        rs2: high_field(word),
    }
}

fn scale_immediate(word: u32, factor: Factor) -> Instruction
    ensures { result ≡ ranged (ScaleImmediate factor (field7 word) (field15 word) (field20 word)) }
{
    let md = low_field(word);
    let ms1 = middle_field(word);
    if md >= 2 {
        return Instruction::Illegal {
            wrong: Wrong::Register,
        };
    }
    if ms1 >= 2 {
        return Instruction::Illegal {
            wrong: Wrong::Register,
        };
    }
    Instruction::ScaleImmediate {
        factor: factor,
        md: md,
        ms1: ms1,
        immediate: (word / 0x10_0000 % 32) as u64,
    }
}

// A move of rows (plain) or columns (transposed) to vector registers.
fn move_out(word: u32, form: Form) -> Instruction
    ensures { result ≡ ranged (MoveOut form (field7 word) (field15 word) (field20 word)) }
{
    let ms1 = middle_field(word);
    if ms1 >= 2 {
        return Instruction::Illegal {
            wrong: Wrong::Register,
        };
    }
    Instruction::MoveOut {
        form: form,
        vd: low_field(word),
        ms1: ms1,
        rs2: high_field(word),
    }
}

// And from vector registers.
fn move_in(word: u32, form: Form) -> Instruction
    ensures { result ≡ ranged (MoveIn form (field7 word) (field15 word) (field20 word)) }
{
    let md = low_field(word);
    if md >= 2 {
        return Instruction::Illegal {
            wrong: Wrong::Register,
        };
    }
    Instruction::MoveIn {
        form: form,
        md: md,
        vs1: middle_field(word),
        rs2: high_field(word),
    }
}

// The table's entry for a word.
fn number_of(word: u32) -> u8
    ensures { result ≡ entry_of word }
{
    let high = word / 0x1000_0000;
    let middle = (word / 0x200_0000 % 8) as usize;
    let form = (word / 4096 % 8) as usize;
    entry(high, middle, form)
}

// The entries that fix bits 24..20 at zero.
fn fixes_zero(number: u8) -> bool
    ensures { result ≡ fixes_zero number }
{
    match number {
        2 | 4 | 6 | 8 => true,
        38..=52 => true,
        61..=74 => true,
        _ => false,
    }
}

// Settings: the entries 1 to 8.
fn setting(word: u32, number: u8) -> Instruction
    requires { (0 < number) × (number ≤ 8) }
    ensures { result ≡ ranged (meant number word listing) }
{
    match number {
        1 => set_type_immediate(word),
        2 => set_type(word),
        3 => set_tile_immediate(word, Dimension::DimensionM),
        4 => set_tile(word, Dimension::DimensionM),
        5 => set_tile_immediate(word, Dimension::DimensionK),
        6 => set_tile(word, Dimension::DimensionK),
        7 => set_tile_immediate(word, Dimension::DimensionN),
        _ => set_tile(word, Dimension::DimensionN),
    }
}

// Loads: the entries 9 to 20, or 109 to 120.
fn loading(word: u32, form: Form, number: u8) -> Instruction
    requires { (8 < number) × (number ≤ 20) }
    ensures { result ≡ ranged (meant (numbered form number) word listing) }
{
    match number {
        9 => load(word, form, Matrix::MatrixA, 8, 1),
        10 => load(word, form, Matrix::MatrixA, 8, 2),
        11 => load(word, form, Matrix::MatrixA, 8, 4),
        12 => load(word, form, Matrix::MatrixA, 8, 8),
        13 => load(word, form, Matrix::MatrixB, 8, 1),
        14 => load(word, form, Matrix::MatrixB, 8, 2),
        15 => load(word, form, Matrix::MatrixB, 8, 4),
        16 => load(word, form, Matrix::MatrixB, 8, 8),
        17 => load(word, form, Matrix::MatrixC, 2, 1),
        18 => load(word, form, Matrix::MatrixC, 2, 2),
        19 => load(word, form, Matrix::MatrixC, 2, 4),
        _ => load(word, form, Matrix::MatrixC, 2, 8),
    }
}

// Stores: the entries 21 to 32, or 121 to 132.
fn storing(word: u32, form: Form, number: u8) -> Instruction
    requires { (20 < number) × (number ≤ 32) }
    ensures { result ≡ ranged (meant (numbered form number) word listing) }
{
    match number {
        21 => store(word, form, Matrix::MatrixA, 8, 1),
        22 => store(word, form, Matrix::MatrixA, 8, 2),
        23 => store(word, form, Matrix::MatrixA, 8, 4),
        24 => store(word, form, Matrix::MatrixA, 8, 8),
        25 => store(word, form, Matrix::MatrixB, 8, 1),
        26 => store(word, form, Matrix::MatrixB, 8, 2),
        27 => store(word, form, Matrix::MatrixB, 8, 4),
        28 => store(word, form, Matrix::MatrixB, 8, 8),
        29 => store(word, form, Matrix::MatrixC, 2, 1),
        30 => store(word, form, Matrix::MatrixC, 2, 2),
        31 => store(word, form, Matrix::MatrixC, 2, 4),
        _ => store(word, form, Matrix::MatrixC, 2, 8),
    }
}

// Multiplies and element-wise instructions: the entries 33 to 60; the others up to 108 are left out.
fn arithmetic(word: u32, number: u8) -> Instruction
    requires { (32 < number) × (number ≤ 108) }
    ensures { result ≡ ranged (meant number word listing) }
{
    match number {
        33 => multiply(word, Factor::Single),
        34 => float_multiply(word),
        35 => multiply(word, Factor::Double),
        37 => multiply(word, Factor::Quadruple),
        38 => combine(word, Sum::Add, Factor::Single),
        40 => combine(word, Sum::Add, Factor::Double),
        42 => combine(word, Sum::Add, Factor::Quadruple),
        43 => combine(word, Sum::Subtract, Factor::Single),
        45 => combine(word, Sum::Subtract, Factor::Double),
        47 => combine(word, Sum::Subtract, Factor::Quadruple),
        48 => combine(word, Sum::ReverseSubtract, Factor::Single),
        50 => combine(word, Sum::ReverseSubtract, Factor::Double),
        52 => combine(word, Sum::ReverseSubtract, Factor::Quadruple),
        53 => scale(word, Factor::Single),
        55 => scale(word, Factor::Double),
        57 => scale(word, Factor::Quadruple),
        58 => scale_immediate(word, Factor::Single),
        59 => scale_immediate(word, Factor::Double),
        60 => scale_immediate(word, Factor::Quadruple),
        _ => Instruction::Illegal {
            wrong: Wrong::LeftOut,
        },
    }
}

// Moves: the entries 229, 230, 235 and 236; the others above 132 are left out.
fn moving(word: u32, number: u8) -> Instruction
    requires { 132 < number }
    ensures { result ≡ ranged (meant number word listing) }
{
    match number {
        229 => move_out(word, Form::Plain),
        230 => move_in(word, Form::Plain),
        235 => move_out(word, Form::Transposed),
        236 => move_in(word, Form::Transposed),
        _ => Instruction::Illegal {
            wrong: Wrong::LeftOut,
        },
    }
}

// Of loads and stores, numbers above 108 are those of transposed ones, with 100 added.
fn form_of(number: u8) -> Form
    ensures { result ≡ cond (ltb 108 number) Transposed Plain }
{
    if number > 108 {
        return Form::Transposed;
    }
    Form::Plain
}

// A number as it is printed.
fn printed(number: u8) -> u8
    ensures { result ≡ cond (ltb 108 number) (number - 100) number }
{
    if number > 108 {
        return number - 100;
    }
    number
}

// The instruction of the entry with this number.
fn meant(word: u32, number: u8) -> Instruction
    ensures { result ≡ ranged (meant number word listing) }
{
    if number == 0 {
        return Instruction::Illegal {
            wrong: Wrong::Unlisted,
        };
    }
    if number <= 8 {
        return setting(word, number);
    }
    let form = form_of(number);
    let plain = printed(number);
    if plain <= 20 {
        return loading(word, form, plain);
    }
    if plain <= 32 {
        return storing(word, form, plain);
    }
    if number <= 108 {
        return arithmetic(word, number);
    }
    moving(word, number)
}

// Bits 24..20 of a word are what the entry with this number fixes.
pub fn rest_right(word: u32, number: u8) -> bool
    ensures { result ≡ rest_right number word }
{
    let rest = high_field(word);
    let zero = fixes_zero(number);
    if zero {
        return rest == 0;
    }
    true
}

// The instruction of a word; Illegal, with what is wrong, where it is refused for what it is.
pub fn decode(word: u32) -> Instruction
    ensures { result ≡ decode word }
{
    if word % 128 != 119 {
        return Instruction::Illegal {
            wrong: Wrong::Opcode,
        };
    }
    let number = number_of(word);
    let right = rest_right(word, number);
    if !right {
        return Instruction::Illegal {
            wrong: Wrong::Unlisted,
        };
    }
    meant(word, number)
}
