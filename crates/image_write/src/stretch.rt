// Stretches of marks that all have one value.
ghost use Rattle.std.specs.Prelude.{◌≡◌, ◌+◌, ◌/◌, ◌≤◌, ◌<◌, eqb, length, get_or};
ghost use Rattle.std.specs.Int.Count.{count_trailing_zeros};
ghost use Rattle.machine.specs.Tests.{all};
ghost use Rattle.image_write.specs.Parts.{TwoValued, Stretch, StretchTo, from_bytes, differs};

use unit_element::Element;

// Whether the n marks from p on all have the value, without a way out of the loop.
fn all_are(marks: &[u8], p: usize, n: usize, value: u8) -> bool
    requires { p + n ≤ length marks.now }
    ensures { result ≡ all n (λ b. eqb (get_or marks.now (p + b) 0) value) }
{
    let mut good = true;
    for i in 0..n {
        if marks[p + i] != value {
            good = false;
        }
    }
    good
}

// How far the marks from a place on have the value, by blocks of 64.
fn blocks_end(marks: &[u8], from: usize, value: u8) -> usize
    requires { from ≤ length marks.now }
    ensures { StretchTo marks.now from value result }
{
    let mut i = from;
    // A while: the place of the block is the answer, and a range by 64 is no plainer.
    while marks.len() - i >= 64 {
        if !all_are(marks, i, 64, value) {
            return i;
        }
        i += 64;
    }
    i
}

// The first mark from a place on, and before a limit, that does not have the value; else the limit.
fn end_before(marks: &[u8], from: usize, limit: usize, value: u8) -> usize
    requires { (from ≤ limit) × (limit ≤ length marks.now) }
    ensures { Stretch marks.now from limit value result }
{
    for i in from..limit {
        if marks[i] != value {
            return i;
        }
    }
    limit
}

// How many of the low bytes of a number are 0, up to the first other one.
fn zero_bytes(word: u64) -> usize
    ensures { result ≡ count_trailing_zeros 64 word / 8 }
{
    (u64::trailing_zeros(word) / 8) as usize
}

// Which of the eight marks from a place on do not have the value: a number with 1 in the byte of each that does not.
fn others(marks: &[u8], at: usize, value: u8) -> u64
    requires at_in_bounds { at + 8 ≤ length marks.now }
    requires two_valued { TwoValued marks.now }
    requires value_bound { value < 2 }
    ensures { result ≡ from_bytes 8 (λ i. differs value (get_or marks.now (at + i) 0)) }
{
    let word = u64::read(marks, at);
    if value == 0 {
        return word;
    }
    0x101_0101_0101_0101 - word
}

// The same as `end_before`, eight marks at a time.
fn words_end(marks: &[u8], from: usize, limit: usize, value: u8) -> usize
    requires from_le_limit { (from ≤ limit) × (limit ≤ length marks.now) }
    requires two_valued { TwoValued marks.now }
    requires value_bound { value < 2 }
    ensures { Stretch marks.now from limit value result }
{
    let mut i = from;
    // A while: what it leaves, fewer than 8, is looked at from where it ends.
    while limit - i >= 8 {
        let word = others(marks, i, value);
        if word != 0 {
            return i + zero_bytes(word);
        }
        i += 8;
    }
    end_before(marks, i, limit, value)
}

// The first mark from a place on that does not have the value; else the end. A stretch of 32 is followed by blocks.
fn long_end(marks: &[u8], from: usize, value: u8) -> usize
    requires from_in_bounds { from ≤ length marks.now }
    requires two_valued { TwoValued marks.now }
    requires value_bound { value < 2 }
    ensures { Stretch marks.now from (length marks.now) value result }
{
    let end = marks.len();
    if end - from < 32 {
        return words_end(marks, from, end, value);
    }
    let near = words_end(marks, from, from + 32, value);
    if near < from + 32 {
        return near;
    }
    let far = blocks_end(marks, near, value);
    words_end(marks, far, end, value)
}

// The same; the first two marks, where most short stretches end, are looked at one by one.
pub fn stretch_end(marks: &[u8], from: usize, value: u8) -> usize
    requires from_in_bounds { from ≤ length marks.now }
    requires two_valued { TwoValued marks.now }
    requires value_bound { value < 2 }
    ensures { Stretch marks.now from (length marks.now) value result }
{
    if marks.len() - from < 10 {
        return long_end(marks, from, value);
    }
    if marks[from] != value {
        return from;
    }
    if marks[from + 1] != value {
        return from + 1;
    }
    let word = others(marks, from + 2, value);
    if word != 0 {
        return from + 2 + zero_bytes(word);
    }
    long_end(marks, from + 10, value)
}
