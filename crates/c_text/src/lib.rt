// Lines of assembler text as C calls them: the line of a word, and the word of a line. What each answers and leaves is defined in specs/.
#![tactic(auto)]

ghost use Rattle.std.specs.Prelude.{◌≡◌, true, cond, ◌++◌, leb, length, drop};
ghost use Rattle.unit_table.specs.Table.{entry_of};
ghost use Rattle.text_assembly.specs.Lines.{line};
ghost use Rattle.text_assembly.specs.Theorems.{has_line};
ghost use Rattle.text_write.specs.Parts.{line_text};
ghost use Rattle.c_text.specs.TextCalls.{packed_result, text_out, host_word_text, word_left, host_text_word};

use text_answers::{code_answer, error_column, error_number, number_of};
use text_assembly::TextError;
use unit_element::Element;

// The length of what is written, above a zero; or an error's number, with the column that it names in the bits above.
fn packed_text(found: Result<usize, TextError>) -> u64
    ensures { result ≡ packed_result found }
{
    match found {
        Ok(size) => size as u64 % 0x1_0000_0000_0000 * 65536,
        Err(error) => error_number(error) + error_column(error) % 0x1_0000_0000_0000 * 65536,
    }
}

// Writes the line of a word that has one to the front of the text, where it fits; returns its length.
fn write_line(word: u32, number: u8, text: &mut [u8]) -> usize
    requires { (number ≡ entry_of word) × (has_line (line word) ≡ true) }
    ensures value { result ≡ length (line_text (line word)) }
    ensures text_after { text.new ≡ cond (leb result (length text.old)) (line_text (line word) ++ drop result text.old) text.old }
{
    let mut own = [0u8; 32];
    let size = text_write::put_line(&mut own, 0, number, word);
    if text.len() < size {
        return size;
    }
    text_lines::put_text(text, 0, &own[..size])
}

// The line of a word.
pub fn word_text(word: u32, text: &mut [u8]) -> u64
    ensures { text_out result text.new ≡ host_word_text word text.old }
{
    let number = number_of(word);
    match code_answer(word, number) {
        Ok(()) => {
            let room = text.len();
            let size = write_line(word, number, text);
            if room < size {
                packed_text(Err(TextError::NoRoom))
            } else {
                packed_text(Ok(size))
            }
        }
        Err(error) => packed_text(Err(error)),
    }
}

// The word of a line, as a number of 64 bits.
pub fn text_word(text: &[u8], word: &mut [u8]) -> u64
    ensures { word_left result word.new ≡ host_text_word text.now word.old }
{
    if word.len() != 8 {
        return packed_text(Err(TextError::BadArguments));
    }
    match text_read::read_line(text) {
        Ok(value) => {
            u64::write(word, 0, value);
            packed_text(Ok(0))
        }
        Err(fault) => packed_text(Err(TextError::BadLine {
            column: fault.place as u64 + 1,
        })),
    }
}
