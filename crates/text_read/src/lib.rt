// Reading a line of assembler text: the word whose line it is, or the place of the first character at which no line goes on.
#![tactic(auto)]

ghost use Rattle.std.specs.Prelude.{◌≡◌, Ok, List, ◌∷◌, ℕ, ◌+◌, ◌*◌, ◌-◌, ◌≤◌, ◌<◌, length, drop};
ghost use Rattle.text_assembly.specs.Lines.{small};
ghost use Rattle.text_assembly.specs.Reading.{is_digit, goes_on, digits_on, is_first, read_decimal, read_operand, read_line};
ghost use Rattle.text_read.specs.Table.{row_at};
ghost use Rattle.text_read.specs.Parts.{got_from, as_line, operand_in, meant_by, next_scale, row_from, end_at, go_on, Bounded, read_row, space_in, feed_at};

pub mod rows;

// A number that was read, and the place after it.
#[derive(Clone, Copy)]
pub struct Number {
    pub value: u64,
    pub next: usize,
}

// No line goes on at this place.
#[derive(Clone, Copy)]
pub struct Fault {
    pub place: usize,
}

// What a letter of a row's text stands for, if it is an operand.
#[derive(Clone, Copy)]
pub enum Operand {
    Register,
    Tile,
    Accumulator,
    Immediate,
    SignedImmediate,
}

// A line along a row's text: the place in the line, the next operand's place in the word and what is known of the word.
#[derive(Clone, Copy)]
pub struct Progress {
    pub at: usize,
    pub scale: u64,
    pub word: u64,
}

fn is_digit(b: u8) -> bool
    ensures { result ≡ is_digit b }
{
    b.is_ascii_digit()
}

// v and one digit more.
fn more(v: u64, b: u8) -> u64
    requires { (v ≤ 8191) × (48 ≤ b) × (b ≤ 57) }
    ensures { result ≡ 10 * v + (b - 48) }
{
    10 * v + u64::from(b - b'0')
}

// Whether v goes on with the digit b.
fn goes_on(most: u64, v: u64, b: u8) -> bool
    requires { v ≤ 8191 }
    ensures { result ≡ goes_on most v b }
{
    is_digit(b) && v != 0 && more(v, b) <= most
}

// v, and the digits from `from` on that go on with it.
fn digits_on(line: &[u8], from: usize, most: u64, v: u64) -> Number
    requires { (from ≤ length line.now) × (v ≤ most) × (most ≤ 8191) }
    ensures { Ok result ≡ got_from from (digits_on most v (drop from line.now)) }
{
    let mut value = v;
    for i in from..line.len() {
        let b = line[i];
        if !goes_on(most, value, b) {
            return Number { value, next: i };
        }
        value = more(value, b);
    }
    Number {
        value,
        next: line.len(),
    }
}

// Whether b begins a number from least to most.
fn is_first(least: u64, most: u64, b: u8) -> bool
    ensures { result ≡ is_first least most b }
{
    is_digit(b) && (least..=most).contains(&more(0, b))
}

// The number at `at`, from least to most.
fn read_decimal(line: &[u8], at: usize, least: u64, most: u64) -> Result<Number, Fault>
    requires { (at ≤ length line.now) × (most ≤ 8191) }
    ensures { result ≡ got_from at (read_decimal least most (drop at line.now)) }
{
    if line.len() <= at {
        return Err(Fault { place: at });
    }
    let b = line[at];
    if !is_first(least, most, b) {
        return Err(Fault { place: at });
    }
    Ok(digits_on(line, at + 1, most, more(0, b)))
}

// The signed immediate at `at`, as its field holds it.
fn read_small(line: &[u8], at: usize) -> Result<Number, Fault>
    requires { at ≤ length line.now }
    ensures { result ≡ got_from at (read_operand small (drop at line.now)) }
{
    if line.len() <= at {
        return Err(Fault { place: at });
    }
    if line[at] != b'-' {
        return read_decimal(line, at, 0, 15);
    }
    let found = read_decimal(line, at + 1, 1, 16)?;
    Ok(Number {
        value: 32 - found.value,
        next: found.next,
    })
}

// The operand at `at`.
fn read_operand(line: &[u8], at: usize, operand: Operand) -> Result<Number, Fault>
    requires { at ≤ length line.now }
    ensures { result ≡ got_from at (read_operand (meant_by operand) (drop at line.now)) }
{
    match operand {
        Operand::Register => read_decimal(line, at, 0, 31),
        Operand::Tile => read_decimal(line, at, 0, 7),
        Operand::Accumulator => read_decimal(line, at, 0, 1),
        Operand::Immediate => read_decimal(line, at, 0, 8191),
        Operand::SignedImmediate => read_small(line, at),
    }
}

// The operand for which a letter of a row's text stands.
pub fn operand_in(c: u8) -> Option<Operand>
    ensures { result ≡ operand_in c }
{
    match c {
        b'X' => Some(Operand::Register),
        b'T' => Some(Operand::Tile),
        b'A' => Some(Operand::Accumulator),
        b'I' => Some(Operand::Immediate),
        b'S' => Some(Operand::SignedImmediate),
        _ => None,
    }
}

// The place of the next operand in a word.
pub fn next_scale(scale: u64) -> u64
    ensures { result ≡ next_scale scale }
{
    match scale {
        128 => 32768,
        32768 => 0x10_0000,
        _ => 0,
    }
}

// One letter of a row's text: the line goes on, or it does not.
fn along(line: &[u8], c: u8, so_far: Progress) -> Result<Progress, Fault>
    requires { (so_far.at ≤ length line.now) × (so_far.scale ≤ 0x10_0000) × (so_far.word ≤ 0x4000_0000_0000) }
    ensures by_index { (t : List ℕ) → row_from (c ∷ t) (drop so_far.at line.now) so_far.at so_far.scale so_far.word ≡ go_on t line.now result }
    ensures bounded { Bounded line.now so_far.word result }
{
    match operand_in(c) {
        Some(operand) => {
            let found = read_operand(line, so_far.at, operand)?;
            Ok(Progress {
                at: found.next,
                scale: next_scale(so_far.scale),
                word: so_far.word + found.value * so_far.scale,
            })
        }
        None => {
            if line.len() <= so_far.at {
                return Err(Fault { place: so_far.at });
            }
            if line[so_far.at] != c {
                return Err(Fault { place: so_far.at });
            }
            Ok(Progress {
                at: so_far.at + 1,
                scale: so_far.scale,
                word: so_far.word,
            })
        }
    }
}

// The end of a row's text: the line has to end too.
fn finished(line: &[u8], at: usize, word: u64) -> Result<u64, Fault>
    requires { at ≤ length line.now }
    ensures { result ≡ as_line (end_at (drop at line.now) at word) }
{
    if at < line.len() {
        Err(Fault { place: at })
    } else {
        Ok(word)
    }
}

// The line along a row's text.
fn read_row(line: &[u8], text: &[u8], bits: u64) -> Result<u64, Fault>
    requires { (length text.now ≤ 4096) × (bits < 0x1_0000_0000) }
    ensures { result ≡ as_line (row_from text.now line.now 0 128 bits) }
{
    let mut so_far = Progress {
        at: 0,
        scale: 128,
        word: bits,
    };
    for c in text {
        so_far = along(line, *c, so_far)?;
    }
    finished(line, so_far.at, so_far.word)
}

// The line along row k.
fn read_at(line: &[u8], k: usize) -> Result<u64, Fault>
    requires { k < 79 }
    ensures { result ≡ as_line (read_row (row_at k) line.now) }
{
    let row = rows::row_at(k);
    read_row(line, row.text, u64::from(row.bits))
}

// The word of a line by all rows, or the last of the places at which they stop.
fn furthest(line: &[u8]) -> Result<u64, Fault>
    ensures { result ≡ as_line (read_line line.now) }
{
    let mut best = 0;
    for k in 0..79 {
        match read_at(line, k) {
            Ok(word) => return Ok(word),
            Err(fault) => best = fault.place.max(best),
        }
    }
    Err(Fault { place: best })
}

// Whether one of the first n bytes is a space.
fn has_space(line: &[u8], n: usize) -> bool
    ensures { result ≡ space_in n line.now }
{
    line.iter().take(n).any(|b| *b == b' ')
}

// The word of a line. Only a line without a row's name is held to each row.
pub fn read_line(line: &[u8]) -> Result<u64, Fault>
    ensures { result ≡ as_line (read_line line.now) }
{
    match read_at(line, rows::guess(line)) {
        Ok(word) => Ok(word),
        Err(fault) => {
            if has_space(line, fault.place) {
                return Err(fault);
            }
            furthest(line)
        }
    }
}

// The line feed that ends the line at `from` of a text.
pub fn line_end(text: &[u8], from: usize) -> usize
    requires { from ≤ length text.now }
    ensures { result ≡ from + feed_at (drop from text.now) }
{
    for i in from..text.len() {
        if text[i] == b'\n' {
            return i;
        }
    }
    text.len()
}
