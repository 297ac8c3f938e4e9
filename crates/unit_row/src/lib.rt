// One row: its bytes are written, and its marks are set and tested. And whether every mark of a machine is 0 or 1.
#![tactic(auto)]

ghost use Rattle.std.specs.Prelude.{◌≡◌, ◌+◌, ◌*◌, ◌-◌, ◌≤◌, eqb, ltb, length, get_or, set};
ghost use Rattle.numbers.specs.Upto.{upto};
ghost use Rattle.numbers.specs.Tile.{mark_row};
ghost use Rattle.machine.specs.Tests.{all, all_of};

use unit_element::Element;

// Copies the eight bytes from i on, all read before any is written: one move of eight bytes, with no test for overlap. Copied by
// copy_from_slice, a row of 64 bytes takes 2.5 times as long.
fn copy_eight(dst: &mut [u8], src: &[u8], i: usize)
    requires i_in_bounds { i + 8 ≤ length dst.old }
    requires i_in_bounds_2 { i + 8 ≤ length src.now }
    ensures { dst.new ≡ upto 8 (λ b ys. set ys (i + b) (get_or src.now (i + b) 0)) dst.old }
{
    let a = src[i];
    let b = src[i + 1];
    let c = src[i + 2];
    let d = src[i + 3];
    let e = src[i + 4];
    let f = src[i + 5];
    let g = src[i + 6];
    let h = src[i + 7];
    dst[i] = a;
    dst[i + 1] = b;
    dst[i + 2] = c;
    dst[i + 3] = d;
    dst[i + 4] = e;
    dst[i + 5] = f;
    dst[i + 6] = g;
    dst[i + 7] = h;
}

// Copies src by eights, and says how many bytes that were.
fn copy_eights(dst: &mut [u8], src: &[u8]) -> usize
    requires { length src.now ≤ length dst.old }
    ensures upper_bound { result ≤ length src.now }
    ensures dst_after { dst.new ≡ upto result (λ b ys. set ys b (get_or src.now b 0)) dst.old }
{
    let eights = src.len() / 8;
    for eight in 0..eights {
        copy_eight(dst, src, 8 * eight);
    }
    8 * eights
}

// Copies the bytes of src from index done on.
fn copy_rest(dst: &mut [u8], src: &[u8], done: usize)
    requires src_in_bounds { length src.now ≤ length dst.old }
    requires done_in_bounds { done ≤ length src.now }
    ensures { dst.new ≡ upto (length src.now - done) (λ b ys. set ys (done + b) (get_or src.now (done + b) 0)) dst.old }
{
    for i in done..src.len() {
        dst[i] = src[i];
    }
}

// The row writer: copies all of src to the front of dst, by eights and without a call: the library calls no memmove, as copy_from_slice does.
pub fn write_row(dst: &mut [u8], src: &[u8])
    requires { length src.now ≤ length dst.old }
    ensures { dst.new ≡ upto (length src.now) (λ b ys. set ys b (get_or src.now b 0)) dst.old }
{
    let done = copy_eights(dst, src);
    copy_rest(dst, src, done);
}

fn mark_first(dst: &mut [u8], n: usize)
    requires { n ≤ length dst.old }
    ensures { dst.new ≡ mark_row 0 n dst.old }
{
    for mark in &mut dst[..n] {
        *mark = 1;
    }
}

// Sets the first n marks: 8 and 16, the most common, without a loop, since their number is known where the code is compiled.
pub fn mark_row(dst: &mut [u8], n: usize)
    requires { n ≤ length dst.old }
    ensures { dst.new ≡ mark_row 0 n dst.old }
{
    if n == 8 {
        mark_first(dst, 8);
        return;
    }
    if n == 16 {
        mark_first(dst, 16);
        return;
    }
    mark_first(dst, n);
}

// Whether the n marks from p on are all 1, without a way out of the loop.
pub fn row_marked(marks: &[u8], p: usize, n: usize) -> bool
    requires { p + n ≤ length marks.now }
    ensures { result ≡ all n (λ b. eqb (get_or marks.now (p + b) 0) 1) }
{
    let mut good = true;
    for mark in &marks[p..p + n] {
        good &= *mark == 1;
    }
    good
}

// The same. Eight marks, a row of a tile of the smallest machine, are compared as one number.
pub fn line_marked(marks: &[u8], p: usize, n: usize) -> bool
    requires { p + n ≤ length marks.now }
    ensures { result ≡ all n (λ b. eqb (get_or marks.now (p + b) 0) 1) }
{
    if n == 8 {
        return u64::read(marks, p) == 0x0101_0101_0101_0101;
    }
    row_marked(marks, p, n)
}

// The largest of four times quarter marks: one of each quarter a turn, which is faster than one after the other.
fn most_of(marks: &[u8], quarter: usize) -> u8
    requires { 4 * quarter ≤ length marks.now }
    ensures { ltb result 2 ≡ all (4 * quarter) (λ k. ltb (get_or marks.now k 0) 2) }
{
    let second = quarter + quarter;
    let third = second + quarter;
    let mut most = 0;
    for i in 0..quarter {
        let low = marks[i].max(marks[quarter + i]);
        let high = marks[second + i].max(marks[third + i]);
        most = most.max(low.max(high));
    }
    most
}

// Whether every mark is 0 or 1: the largest is kept and tested at the end. The marks of the smallest machine need no loop.
pub fn marks_sound(marks: &[u8]) -> bool
    ensures { result ≡ all_of (λ mark. ltb mark 2) marks.now }
{
    if marks.len() == 256 {
        return most_of(marks, 64) < 2;
    }
    let quarter = marks.len() / 4;
    let mut most = most_of(marks, quarter);
    for mark in &marks[4 * quarter..] {
        most = most.max(*mark);
    }
    most < 2
}
