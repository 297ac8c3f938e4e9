// Where the rows of a tile lie in memory: row i at base + i * stride. The stride is signed, so rows go down as well as up. The tests
// on all rows: in memory, no byte in two of them, none in a range.
#![tactic(auto)]

ghost use Rattle.std.specs.Prelude.{◌≡◌, true, false, ◌+◌, ◌*◌, ◌^◌, ◌<◌, leb, pos, nat_abs, ◌+ℤ◌, ◌*ℤ◌};
ghost use Rattle.numbers.specs.Reduce.{signed};
ghost use Rattle.machine.specs.Tests.{within};
ghost use Rattle.machine.specs.Memory.{row_at, address, in_memory, inside, distinct, misses, rows_miss};

// The signed number that the 64 bits of x stand for.
pub fn as_signed(x: u64) -> i64
    ensures { result ≡ signed (2 ^ 64) x }
{
    x.cast_signed()
}

// How far z is from 0.
pub fn magnitude(z: i64) -> usize
    ensures { result ≡ nat_abs z }
{
    z.unsigned_abs() as usize
}

// Where a row starts: the signed product of row and stride away from base. The product is bounded before it is formed (is_bounded),
// and the row starts at 0 or above.
pub fn row_address(base: usize, stride: i64, row: usize) -> usize
    requires row_bound { row < 2 ^ 63 }
    requires row_bound_2 { nat_abs stride * row < 2 ^ 63 }
    requires stride_value { in_memory (2 ^ 64) (pos base +ℤ pos row *ℤ stride) ≡ true }
    ensures { result ≡ address (pos base +ℤ pos row *ℤ stride) }
{
    let distance = (row as i64) * stride;
    if distance < 0 {
        return base - magnitude(distance);
    }
    base + magnitude(distance)
}

// Whether the row times the stride is at most room away from 0: a bound by division, with no product.
pub fn is_bounded(stride: i64, row: usize, room: usize) -> bool
    ensures { result ≡ leb (nat_abs stride * row) room }
{
    row == 0 || magnitude(stride) <= room / row
}

// Whether the rows, of so many bytes each, lie in a memory of len bytes: the first does, and the last is not too far from it.
pub fn rows_inside(len: usize, base: usize, stride: u64, rows: usize, bytes: usize) -> bool
    ensures { result ≡ inside len base stride rows bytes }
{
    if bytes == 0 {
        return true;
    }
    if rows == 0 {
        return true;
    }
    if bytes > len {
        return false;
    }
    let end = len - bytes;
    if base > end {
        return false;
    }
    let step = as_signed(stride);
    if step < 0 {
        return is_bounded(step, rows - 1, base);
    }
    is_bounded(step, rows - 1, end - base)
}

// Whether no byte of the rows, which lie in memory, is in two of them: two rows or more are as far from each other as they are long.
pub fn rows_distinct(len: usize, base: usize, stride: u64, rows: usize, bytes: usize) -> bool
    requires { inside len base stride rows bytes ≡ true }
    ensures { result ≡ distinct (row_at base stride) rows bytes }
{
    if bytes == 0 {
        return true;
    }
    if rows < 2 {
        return true;
    }
    bytes <= magnitude(as_signed(stride))
}

// Whether the n bytes from p on miss the range.
pub fn misses_range(seal: u64, size: u64, p: usize, n: usize) -> bool
    requires { p + n < 2 ^ 64 }
    ensures { result ≡ misses (within seal size) p n }
{
    if n == 0 {
        return true;
    }
    if size == 0 {
        return true;
    }
    let first = p as u64;
    let end = (p + n) as u64;
    if end <= seal {
        return true;
    }
    if first < seal {
        return false;
    }
    let last = size - 1;
    if last > 0xffff_ffff_ffff_ffff - seal {
        return false;
    }
    first > seal + last
}

// Whether the rows, which lie in memory, miss a range.
pub fn rows_miss(
    len: usize,
    seal: u64,
    size: u64,
    base: usize,
    stride: u64,
    rows: usize,
    bytes: usize,
) -> bool
    requires bytes_value { inside len base stride rows bytes ≡ true }
    requires len_bound { len < 2 ^ 63 }
    requires bytes_bound { rows * bytes < 2 ^ 63 }
    ensures { result ≡ rows_miss (within seal size) base stride rows bytes }
{
    if bytes == 0 {
        return true;
    }
    let step = as_signed(stride);
    for i in 0..rows {
        let at = row_address(base, step, i);
        if !misses_range(seal, size, at, bytes) {
            return false;
        }
    }
    true
}
