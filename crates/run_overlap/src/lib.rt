// The overlap tests of a start, exact: by the ends of ranges.
#![tactic(auto)]

ghost use Rattle.std.specs.Prelude.{◌≡◌, true, not, ℕ, ◌+◌, ◌*◌, ◌^◌, ◌<◌, ◌≤◌};
ghost use Rattle.machine.specs.Tests.{all, within};
ghost use Rattle.machine.specs.Memory.{row_at, inside};
ghost use Rattle.run.specs.Start.{apart};

use unit_address::{as_signed, magnitude, row_address};

// Whether the n bytes from p on and the o bytes from q on share none.
pub fn ranges_apart(p: usize, n: usize, q: usize, o: usize) -> bool
    requires n_bound { p + n < 2 ^ 64 }
    requires o_bound { q + o < 2 ^ 64 }
    ensures { result ≡ all n (λ b. not (within q o (p + b))) }
{
    n == 0 || o == 0 || p + n <= q || q + o <= p
}

// How many steps of the distance gap it takes from a number to get past another.
fn steps_past(from: usize, to: usize, gap: usize) -> usize
    requires gap_nonzero { 0 < gap }
    requires to_bound { to + 1 < 2 ^ 64 }
    ensures passed { (k : ℕ) → k < result → from + k * gap ≤ to }
    ensures next { to < from + result * gap }
{
    if to < from {
        return 0;
    }
    (to - from) / gap + 1
}

// Whether no byte of the rows, which lie in memory, is one of the o bytes from q on. The rows go up or down: those before that range
// miss it, and the next one decides.
pub fn rows_miss(
    len: usize,
    base: usize,
    stride: u64,
    rows: usize,
    bytes: usize,
    q: usize,
    o: usize,
) -> bool
    requires bytes_value { inside len base stride rows bytes ≡ true }
    requires len_bound { len < 2 ^ 63 }
    requires rows_bound { rows ≤ 1024 }
    requires o_bound { q + o < 2 ^ 64 }
    ensures { result ≡ all rows (λ i. all bytes (λ b. not (within q o (row_at base stride i + b)))) }
{
    if bytes == 0 {
        return true;
    }
    if o == 0 {
        return true;
    }
    if rows == 0 {
        return true;
    }
    let gap = magnitude(as_signed(stride));
    if gap == 0 {
        return ranges_apart(base, bytes, q, o);
    }
    if stride < 0x8000_0000_0000_0000 {
        let above = steps_past(base + bytes, q, gap);
        if above >= rows {
            return true;
        }
        return ranges_apart(row_address(base, as_signed(stride), above), bytes, q, o);
    }
    let below = steps_past(q + o, base, gap);
    if below >= rows {
        return true;
    }
    ranges_apart(row_address(base, as_signed(stride), below), bytes, q, o)
}

// Whether no byte of the rows is in one of the others; both lie in memory.
pub fn rows_apart(
    len: usize,
    base: usize,
    stride: u64,
    rows: usize,
    bytes: usize,
    other: usize,
    pace: u64,
    count: usize,
    size: usize,
) -> bool
    requires bytes_value { inside len base stride rows bytes ≡ true }
    requires size_value { inside len other pace count size ≡ true }
    requires len_bound { len < 2 ^ 63 }
    requires rows_bound { rows ≤ 1024 }
    requires count_bound { count ≤ 1024 }
    ensures { result ≡ apart (row_at base stride) rows bytes (row_at other pace) count size }
{
    if size == 0 {
        return true;
    }
    for k in 0..count {
        let at = row_address(other, as_signed(pace), k);
        if !rows_miss(len, base, stride, rows, bytes, at, size) {
            return false;
        }
    }
    true
}
