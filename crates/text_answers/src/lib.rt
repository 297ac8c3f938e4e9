// The answers to words and lines of text: their numbers and columns, and a refused line as it is printed.
#![tactic(auto)]

ghost use Rattle.std.specs.Prelude.{◌≡◌, cond, Ok, Err, [], ◌∷◌, ◌+◌, ◌≤◌, ltb, length};
ghost use Rattle.machine.specs.Answers.{number};
ghost use Rattle.machine.specs.Refusals.{word_answer};
ghost use Rattle.machine.specs.Tests.{every};
ghost use Rattle.machine.specs.Listing.{listing, decode, ranged};
ghost use Rattle.machine.specs.declared.Wrong.TheVariants.{Register};
ghost use Rattle.unit_table.specs.Table.{entry_of, meant};
ghost use Rattle.text_lines.specs.Parts.{Wrote};
ghost use Rattle.text_assembly.specs.declared.TextError.TheVariants.{NoLine};
ghost use Rattle.text_assembly.specs.Answers.{error_reply, code_answer};
ghost use Rattle.text_assembly.specs.Programs.{refusal, refused};

use machine::Wrong;
use text_assembly::TextError;
use unit_decode::{are_registers, high_field, low_field, middle_field, rest_right};
use unit_table::entry;

fn wrong_number(wrong: Wrong) -> u64
    ensures { result ≡ number (Err (word_answer wrong)) }
{
    match wrong {
        Wrong::Opcode => 10,
        Wrong::LeftOut => 11,
        Wrong::Unlisted => 1,
        Wrong::Register => 12,
    }
}

// The number of an error.
pub fn error_number(error: TextError) -> u64
    ensures { result ≡ (error_reply error).number }
{
    match error {
        TextError::NoLine { wrong } => wrong_number(wrong),
        TextError::BadArguments => 8,
        TextError::NoRoom => 14,
        TextError::BadLine { column: _ } => 17,
    }
}

// The column that an error names.
pub fn error_column(error: TextError) -> u64
    ensures { result ≡ (error_reply error).column }
{
    match error {
        TextError::BadLine { column } => column,
        _ => 0,
    }
}

// The decode table's entry for a word.
pub fn number_of(word: u32) -> u8
    ensures { result ≡ entry_of word }
{
    let high = word / 0x1000_0000;
    let middle = (word / 0x200_0000 % 8) as usize;
    let form = (word / 4096 % 8) as usize;
    entry(high, middle, form)
}

fn are_accumulators(md: usize, ms1: usize) -> bool
    ensures { result ≡ every (ltb md 2 ∷ ltb ms1 2 ∷ []) }
{
    md < 2 && ms1 < 2
}

// By whether a word's registers are in range.
fn range_answer(right: bool) -> Result<(), TextError>
    ensures { result ≡ cond right (Ok tt) (Err (NoLine Register)) }
{
    if right {
        Ok(())
    } else {
        Err(TextError::NoLine {
            wrong: Wrong::Register,
        })
    }
}

// At an entry's number, which registers its words name: t a tile register and c an accumulator in bits 11..7 (loads and stores of A and B;
// those of C, and moves to an accumulator), v an accumulator in bits 19..15 (moves from one), m an accumulator and two tile registers
// (multiplies), e two accumulators (element-wise), s none that could be out of range (settings). A dot is left out, a minus no entry.
// A letter for each, and no variant of an enum: eight lines of letters show the listing, 256 names do not.
static SHAPES: [u8; 256] = *b"-ssssssssttttttttccccttttttttccc\
cmmm.me.e.ee.e.ee.e.ee.e.eeee...\
................................\
.............ttttttttccccttttttt\
tcccc...........................\
................................\
................................\
.....vc....vc...................";

// By the entry with this number, and the registers that a word names.
fn number_answer(word: u32, number: u8) -> Result<(), TextError>
    ensures { result ≡ code_answer (ranged (meant number word listing)) }
{
    let low = low_field(word);
    let middle = middle_field(word);
    match SHAPES[number as usize] {
        b't' => range_answer(low < 8),
        b'c' => range_answer(low < 2),
        b'v' => range_answer(middle < 2),
        b'm' => range_answer(are_registers(low, middle, high_field(word))),
        b'e' => range_answer(are_accumulators(low, middle)),
        b's' => Ok(()),
        b'-' => Err(TextError::NoLine {
            wrong: Wrong::Unlisted,
        }),
        _ => Err(TextError::NoLine {
            wrong: Wrong::LeftOut,
        }),
    }
}

// What stepping answers for the code of a word that has this entry; Ok, if it has a line.
pub fn code_answer(word: u32, number: u8) -> Result<(), TextError>
    requires { number ≡ entry_of word }
    ensures { result ≡ code_answer (decode word) }
{
    if word % 128 != 119 {
        return Err(TextError::NoLine {
            wrong: Wrong::Opcode,
        });
    }
    let right = rest_right(word, number);
    if !right {
        return Err(TextError::NoLine {
            wrong: Wrong::Unlisted,
        });
    }
    number_answer(word, number)
}

// A number and a column.
fn put_refusal(out: &mut [u8], at: usize, answer: u64, column: u64) -> usize
    requires { at + length (refusal answer column) ≤ length out.old }
    ensures { Wrote out.old at out.new result (refusal answer column) }
{
    let a = text_lines::put_text(out, at, b"answer ");
    let b = text_lines::put_decimal(out, a, answer);
    let c = text_lines::put_byte(out, b, b' ');
    text_lines::put_decimal(out, c, column)
}

// A line that is answered with a number and a column.
pub fn put_refused(out: &mut [u8], at: usize, answer: Result<(), TextError>) -> usize
    requires { at + length (refused answer) ≤ length out.old }
    ensures { Wrote out.old at out.new result (refused answer) }
{
    match answer {
        Ok(()) => put_refusal(out, at, 0, 0),
        Err(error) => put_refusal(out, at, error_number(error), error_column(error)),
    }
}
