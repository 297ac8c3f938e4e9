// The lines that `product` writes. What they say is defined in specs/. Each writer goes on from `at` and returns where it ends.
#![tactic(auto)]

ghost use Rattle.std.specs.Prelude.{◌≡◌, ◌∷◌, [], suc, ◌+◌, ◌-◌, ◌*◌, ◌≤◌, ◌<◌, leb, length};
ghost use Rattle.numbers.specs.Reduce.{signed};
ghost use Rattle.text_lines.specs.Lines.{decimal, number_text, spaced, lines, first_line, accepted, refused};
ghost use Rattle.text_lines.specs.Parts.{Wrote, signed_all, rows_of};

// A byte.
pub fn put_byte(out: &mut [u8], at: usize, b: u8) -> usize
    requires { at < length out.old }
    ensures { Wrote out.old at out.new result (b ∷ []) }
{
    out[at] = b;
    at + 1
}

// The digits of n.
pub fn put_decimal(out: &mut [u8], at: usize, n: u64) -> usize
    requires { at + length (decimal n) ≤ length out.old }
    ensures { Wrote out.old at out.new result (decimal n) }
{
    if n < 10 {
        put_byte(out, at, b'0' + (n as u8))
    } else {
        let next = put_decimal(out, at, n / 10);
        put_byte(out, next, b'0' + ((n % 10) as u8))
    }
}

// Whether x stands for a number below 0 at the modulus q.
fn is_minus(q: u64, x: u64) -> bool
    ensures { result ≡ leb q (x + x) }
{
    q.saturating_sub(x) <= x
}

// The digits of that number.
fn magnitude(q: u64, x: u64) -> u64
    ensures { result ≡ suc (q - suc x) }
{
    q.saturating_sub(x).max(1)
}

// The signed number that x stands for at the modulus q.
fn put_signed(out: &mut [u8], at: usize, q: u64, x: u64) -> usize
    requires { at + length (number_text (signed q x)) ≤ length out.old }
    ensures { Wrote out.old at out.new result (number_text (signed q x)) }
{
    if is_minus(q, x) {
        let next = put_byte(out, at, b'-');
        put_decimal(out, next, magnitude(q, x))
    } else {
        put_decimal(out, at, x)
    }
}

// A row of numbers, with one space between.
fn put_row(out: &mut [u8], at: usize, q: u64, row: &[u64]) -> usize
    requires { at + length (spaced (signed_all q row.now)) ≤ length out.old }
    ensures { Wrote out.old at out.new result (spaced (signed_all q row.now)) }
{
    let Some((first, others)) = row.split_first() else {
        return at;
    };
    let mut next = put_signed(out, at, q, *first);
    for x in others {
        next = put_byte(out, next, b' ');
        next = put_signed(out, next, q, *x);
    }
    next
}

// Bytes as they are.
pub fn put_text(out: &mut [u8], at: usize, text: &[u8]) -> usize
    requires { at + length text.now ≤ length out.old }
    ensures { Wrote out.old at out.new result text.now }
{
    let end = at + text.len();
    out[at..end].copy_from_slice(text);
    end
}

// A line for each row of a matrix that stands row by row in c.
fn put_lines(out: &mut [u8], at: usize, q: u64, c: &[u64], rows: usize, cols: usize) -> usize
    requires { (rows * cols ≤ length c.now) × (at + length (lines (rows_of rows cols (signed_all q c.now))) ≤ length out.old) }
    ensures { Wrote out.old at out.new result (lines (rows_of rows cols (signed_all q c.now))) }
{
    let mut next = at;
    for i in 0..rows {
        let from = i * cols;
        next = put_row(out, next, q, &c[from..from + cols]);
        next = put_byte(out, next, b'\n');
    }
    next
}

// The first line of an answer.
fn put_first(out: &mut [u8], answer: u64, steps: u64) -> usize
    requires { length (first_line answer steps) ≤ length out.old }
    ensures { Wrote out.old 0 out.new result (first_line answer steps) }
{
    let a = put_text(out, 0, b"answer ");
    let b = put_decimal(out, a, answer);
    let c = put_text(out, b, b" steps ");
    let d = put_decimal(out, c, steps);
    put_byte(out, d, b'\n')
}

// The text of a product that was made in so many steps.
pub fn put_accepted(
    out: &mut [u8],
    steps: u64,
    q: u64,
    c: &[u64],
    rows: usize,
    cols: usize,
) -> usize
    requires { (8192 ≤ length out.old) × (rows ≤ 16) × (cols ≤ 16) × (rows * cols ≤ length c.now) }
    ensures { Wrote out.old 0 out.new result (accepted steps (rows_of rows cols (signed_all q c.now))) }
{
    let at = put_first(out, 0, steps);
    put_lines(out, at, q, c, rows, cols)
}

// The text of a refusal.
pub fn put_refused(out: &mut [u8]) -> usize
    requires { 8192 ≤ length out.old }
    ensures { Wrote out.old 0 out.new result refused }
{
    put_first(out, 8, 0)
}
