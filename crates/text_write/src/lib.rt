// Writing the line of a word.
#![tactic(auto)]

ghost use Rattle.std.specs.Prelude.{◌≡◌, true, ◌+◌, ◌-◌, ◌≤◌, ◌<◌, length};
ghost use Rattle.unit_table.specs.Table.{entry_of};
ghost use Rattle.text_lines.specs.Parts.{Wrote};
ghost use Rattle.text_assembly.specs.Lines.{shown, pieces, fill, fields_of, line};
ghost use Rattle.text_assembly.specs.Theorems.{has_line};
ghost use Rattle.text_read.specs.Table.{row_at};
ghost use Rattle.text_read.specs.Parts.{meant_by};
ghost use Rattle.text_write.specs.Parts.{narrow_by, field_by, is_minus, piece_text, scale_after, text_from, line_text};

use text_read::Operand;

// A field of five bits, by its place in the word.
fn narrow(scale: u64, word: u32) -> u64
    ensures { result ≡ narrow_by scale word }
{
    match scale {
        128 => u64::from(word / 128 % 32),
        32768 => u64::from(word / 32768 % 32),
        _ => u64::from(word / 0x10_0000 % 32),
    }
}

// The field of an operand.
fn field_of(operand: Operand, scale: u64, word: u32) -> u64
    ensures { result ≡ field_by scale (meant_by operand) word }
{
    match operand {
        Operand::Immediate => u64::from(word / 32768 % 8192),
        _ => narrow(scale, word),
    }
}

// The place of the next operand.
fn scale_after(c: u8, scale: u64) -> u64
    ensures { result ≡ scale_after c scale }
{
    match text_read::operand_in(c) {
        Some(_) => text_read::next_scale(scale),
        None => scale,
    }
}

// Whether an operand is written with a minus.
fn is_minus(operand: Operand, value: u64) -> bool
    ensures { result ≡ is_minus (meant_by operand) value }
{
    match operand {
        Operand::SignedImmediate => 16 <= value,
        _ => false,
    }
}

// An operand.
fn put_operand(out: &mut [u8], at: usize, operand: Operand, value: u64) -> usize
    requires { at + length (shown (meant_by operand) value) ≤ length out.old }
    ensures { Wrote out.old at out.new result (shown (meant_by operand) value) }
{
    if is_minus(operand, value) {
        let next = text_lines::put_byte(out, at, b'-');
        return text_lines::put_decimal(out, next, 32u64.saturating_sub(value));
    }
    text_lines::put_decimal(out, at, value)
}

// A letter of a row's text.
fn put_piece(out: &mut [u8], at: usize, c: u8, scale: u64, word: u32) -> usize
    requires { at + length (piece_text c scale word) ≤ length out.old }
    ensures { Wrote out.old at out.new result (piece_text c scale word) }
{
    match text_read::operand_in(c) {
        Some(operand) => put_operand(out, at, operand, field_of(operand, scale, word)),
        None => text_lines::put_byte(out, at, c),
    }
}

// A row's text, with the fields of a word.
fn put_row(out: &mut [u8], at: usize, text: &[u8], word: u32) -> usize
    requires { at + length (text_from text.now 128 word) ≤ length out.old }
    ensures { Wrote out.old at out.new result (text_from text.now 128 word) }
{
    let mut next = at;
    let mut scale = 128;
    for c in text {
        next = put_piece(out, next, *c, scale, word);
        scale = scale_after(*c, scale);
    }
    next
}

// The row of a word that has a line, by the decode table's entry for it.
fn row_of(number: u8, word: u32) -> usize
    requires { (number ≡ entry_of word) × (has_line (line word) ≡ true) }
    ensures { (result < 79) × (fill (pieces (row_at result).text) (fields_of (pieces (row_at result).text) word) ≡ line_text (line word)) }
{
    BY_NUMBER[number as usize] as usize
}

// The line of a word that has one.
pub fn put_line(out: &mut [u8], at: usize, number: u8, word: u32) -> usize
    requires has_line { (number ≡ entry_of word) × (has_line (line word) ≡ true) }
    requires word_in_bounds { at + length (line_text (line word)) ≤ length out.old }
    ensures { Wrote out.old at out.new result (line_text (line word)) }
{
    let row = text_read::rows::row_at(row_of(number, word));
    put_row(out, at, row.text, word)
}

// At a row's number in the listing, its place in the rows.
static BY_NUMBER: [u8; 256] = [
    0, 0, 1, 2, 3, 4, 5, 6, 7, 8, 9, 10, 11, 12, 13, 14, 15, 16, 17, 18, 19, 20, 21, 22, 23, 24,
    25, 26, 27, 28, 29, 30, 31, 60, 61, 62, 0, 63, 64, 0, 65, 0, 66, 67, 0, 68, 0, 69, 70, 0, 71,
    0, 72, 73, 0, 74, 0, 75, 76, 77, 78, 0, 0, 0, 0, 0, 0, 0, 0, 0, 0, 0, 0, 0, 0, 0, 0, 0, 0, 0,
    0, 0, 0, 0, 0, 0, 0, 0, 0, 0, 0, 0, 0, 0, 0, 0, 0, 0, 0, 0, 0, 0, 0, 0, 0, 0, 0, 0, 0, 32, 33,
    34, 35, 36, 37, 38, 39, 40, 41, 42, 43, 44, 45, 46, 47, 48, 49, 50, 51, 52, 53, 54, 55, 0, 0,
    0, 0, 0, 0, 0, 0, 0, 0, 0, 0, 0, 0, 0, 0, 0, 0, 0, 0, 0, 0, 0, 0, 0, 0, 0, 0, 0, 0, 0, 0, 0, 0,
    0, 0, 0, 0, 0, 0, 0, 0, 0, 0, 0, 0, 0, 0, 0, 0, 0, 0, 0, 0, 0, 0, 0, 0, 0, 0, 0, 0, 0, 0, 0, 0,
    0, 0, 0, 0, 0, 0, 0, 0, 0, 0, 0, 0, 0, 0, 0, 0, 0, 0, 0, 0, 0, 0, 0, 0, 0, 0, 0, 0, 0, 0, 56,
    57, 0, 0, 0, 0, 58, 59, 0, 0, 0, 0, 0, 0, 0, 0, 0, 0, 0, 0, 0, 0, 0, 0, 0, 0, 0,
];
