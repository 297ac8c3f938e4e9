// Listings in assembler text: from words to lines and back, text to text. What they mean is defined in `text_assembly`.
#![tactic(auto)]

ghost use Rattle.std.specs.Prelude.{◌≡◌, true, false, Err, ◌+◌, ◌/◌, ◌%◌, ◌^◌, ◌≤◌, ◌<◌, length, take, drop};
ghost use Rattle.text_lines.specs.Parts.{Wrote};
ghost use Rattle.text_assembly.specs.Lines.{line};
ghost use Rattle.text_assembly.specs.Reading.{read_line};
ghost use Rattle.text_assembly.specs.Words.{hex_of, word_text, read_word};
ghost use Rattle.text_assembly.specs.Programs.{bad_line, listed, listed_as, assembled_as, reply_to, lines_of, replies, program_text};
ghost use Rattle.text_read.specs.Parts.{as_line};
ghost use Rattle.text_listings.specs.Parts.{digit_at};

use text_answers::{code_answer, number_of, put_refused};
use text_assembly::TextError;
use text_read::Fault;

// ---- words in digits

// The value of a digit.
fn hex_value(b: u8) -> Option<u64>
    ensures { result ≡ digit_at b }
{
    match b {
        b'0'..=b'9' => Some(u64::from(b - b'0')),
        b'a'..=b'f' => Some(u64::from(b - b'a') + 10),
        _ => None,
    }
}

// The word of a line of eight digits.
fn read_word(line: &[u8]) -> Result<u64, Fault>
    ensures { result ≡ as_line (read_word line.now) }
{
    let mut word = 0;
    for i in 0..8 {
        if line.len() <= i {
            return Err(Fault { place: i });
        }
        match hex_value(line[i]) {
            Some(d) => word = 16 * word + d,
            None => return Err(Fault { place: i }),
        }
    }
    if 8 < line.len() {
        return Err(Fault { place: 8 });
    }
    Ok(word)
}

// Digit n of a word, from the lowest on.
fn hex_digit(word: u64, n: usize) -> u8
    requires { n < 8 }
    ensures { result ≡ hex_of (word / 16 ^ n % 16) }
{
    let d = ((word >> (4 * n)) % 16) as u8;
    if d < 10 { b'0' + d } else { b'a' - 10 + d }
}

// A word in eight digits.
fn put_word(out: &mut [u8], at: usize, word: u64) -> usize
    requires { at + length (word_text word) ≤ length out.old }
    ensures { Wrote out.old at out.new result (word_text word) }
{
    let mut next = at;
    for n in 0..8 {
        next = text_lines::put_byte(out, next, hex_digit(word, 7 - n));
    }
    next
}

// ---- lines

// The line of a word, or its refusal.
fn put_listed(out: &mut [u8], at: usize, word: u32) -> usize
    requires { at + length (listed word (line word)) ≤ length out.old }
    ensures { Wrote out.old at out.new result (listed word (line word)) }
{
    let number = number_of(word);
    match code_answer(word, number) {
        Ok(()) => text_write::put_line(out, at, number, word),
        Err(error) => put_refused(out, at, Err(error)),
    }
}

// The refusal of a line at this place.
fn put_bad_line(out: &mut [u8], at: usize, fault: Fault) -> usize
    requires fault_place_bound { fault.place ≤ 65536 }
    requires bad_line_in_bounds { at + length (bad_line fault.place) ≤ length out.old }
    ensures { Wrote out.old at out.new result (bad_line fault.place) }
{
    put_refused(
        out,
        at,
        Err(TextError::BadLine {
            column: fault.place as u64 + 1,
        }),
    )
}

// The reply to a line of eight digits.
fn list_line(out: &mut [u8], at: usize, line: &[u8]) -> usize
    requires { (length line.now ≤ 65536) × (at + length (listed_as (read_word line.now)) ≤ length out.old) }
    ensures { Wrote out.old at out.new result (listed_as (read_word line.now)) }
{
    match read_word(line) {
        Ok(word) => put_listed(out, at, word as u32),
        Err(fault) => put_bad_line(out, at, fault),
    }
}

// The reply to a line of assembler text.
fn assemble_line(out: &mut [u8], at: usize, line: &[u8]) -> usize
    requires { (length line.now ≤ 65536) × (at + length (assembled_as (read_line line.now)) ≤ length out.old) }
    ensures { Wrote out.old at out.new result (assembled_as (read_line line.now)) }
{
    match text_read::read_line(line) {
        Ok(word) => put_word(out, at, word),
        Err(fault) => put_bad_line(out, at, fault),
    }
}

// The reply to a line.
fn put_reply(out: &mut [u8], at: usize, line: &[u8], back: bool) -> usize
    requires { (length line.now ≤ 65536) × (at + length (reply_to back line.now) ≤ length out.old) }
    ensures { Wrote out.old at out.new result (reply_to back line.now) }
{
    if back {
        assemble_line(out, at, line)
    } else {
        list_line(out, at, line)
    }
}

// ---- texts

// The replies to all lines of a text, each with a line feed after it.
fn put_replies(out: &mut [u8], text: &[u8], back: bool) -> usize
    requires { (length text.now ≤ 65536) × (786432 ≤ length out.old) }
    ensures { Wrote out.old 0 out.new result (replies back (lines_of text.now)) }
{
    let mut at: usize = 0;
    let mut from: usize = 0;
    // A while: a line ends where its line feed stands, so a turn takes as many bytes as that.
    while from < text.len() {
        let to = text_read::line_end(text, from);
        let next = put_reply(out, at, &text[from..to], back);
        at = text_lines::put_byte(out, next, b'\n');
        from = to + 1;
    }
    at
}

// What a program writes for a text: from words to lines, or back.
fn answer(text: &[u8], out: &mut [u8], back: bool) -> usize
    requires { 786432 ≤ length out.old }
    ensures { Wrote out.old 0 out.new result (program_text back text.now) }
{
    if 65536 < text.len() {
        let at = put_refused(out, 0, Err(TextError::BadArguments));
        return text_lines::put_byte(out, at, b'\n');
    }
    put_replies(out, text, back)
}

// Lines of assembler text for lines of eight digits: writes them, and returns how many bytes they are.
pub fn list_words(text: &[u8], out: &mut [u8; 786432]) -> usize
    ensures upper_bound { (result ≤ 786432) × (length out.new ≡ 786432) }
    ensures out_after { take result out.new ≡ program_text false text.now }
    ensures out_unchanged { drop result out.new ≡ drop result out.old }
{
    answer(text, out, false)
}

// Lines of eight digits for lines of assembler text.
pub fn assemble(text: &[u8], out: &mut [u8; 786432]) -> usize
    ensures upper_bound { (result ≤ 786432) × (length out.new ≡ 786432) }
    ensures out_after { take result out.new ≡ program_text true text.now }
    ensures out_unchanged { drop result out.new ≡ drop result out.old }
{
    answer(text, out, true)
}
