// Numbers in groups of seven bits: read from a slice, by a reader set on it, and put into one; and bytes as they are.
#![tactic(auto)]

ghost use Rattle.std.specs.Prelude.{◌≡◌, ◌+◌, ◌-◌, ◌*◌, ◌/◌, ◌^◌, ◌<◌, ◌≤◌, max, length, take, drop, get_or};
ghost use Rattle.std.proofs.lemmas.List.Edits.{sets};
ghost use Rattle.numbers_format.specs.Numbers.{encode};
ghost use Rattle.numbers_coded.specs.At.{plain, number_at, rest};

// A number that was read, and the place behind it.
#[derive(Clone, Copy)]
pub struct Coded {
    pub value: u64,
    pub at: usize,
}

// The place of the first byte at which no permitted number can go on.
#[derive(Clone, Copy)]
pub struct Damage {
    pub at: usize,
}

// The least number that may follow the group g, where another group has to follow.
fn least_after(lo: u64, g: u64) -> u64
    requires { g < 128 }
    ensures { result ≡ max 1 ((lo + 127 - g) / 128) }
{
    if lo <= g + 128 {
        return 1;
    }
    (lo - g - 1) / 128 + 1
}

// The greatest one.
fn most_after(hi: u64, g: u64) -> u64
    ensures { result ≡ (hi - g) / 128 }
{
    hi.saturating_sub(g) / 128
}

// A number behind its first group, group by group: the rest is from low to high.
fn rest_at(s: &[u8], at: usize, low: u64, high: u64, first: u64) -> Result<Coded, Damage>
    requires at_in_bounds { at ≤ length s.now }
    requires high_bound { first + 128 * high < 2 ^ 64 }
    ensures { result ≡ plain (rest s.now at first 128 low high) }
{
    let mut lo = low;
    let mut hi = high;
    let mut value = first;
    let mut unit: u64 = 128;
    for i in at..s.len() {
        let b = u64::from(s[i]);
        if b < 128 {
            if b < lo {
                return Err(Damage { at: i });
            }
            if hi < b {
                return Err(Damage { at: i });
            }
            return Ok(Coded {
                value: value + unit * b,
                at: i + 1,
            });
        }
        let g = b - 128;
        let next_lo = least_after(lo, g);
        let next_hi = most_after(hi, g);
        if next_hi < next_lo {
            return Err(Damage { at: i });
        }
        value = value + g * unit;
        unit = unit * 128;
        lo = next_lo;
        hi = next_hi;
    }
    Err(Damage { at: s.len() })
}

// The number from low to high at a place of s, where its first group is g and others follow.
fn long_at(s: &[u8], at: usize, low: u64, high: u64, g: u64) -> Result<Coded, Damage>
    requires { (at < length s.now) × (get_or s.now at 0 ≡ 128 + g) × (g < 128) }
    ensures { result ≡ plain (number_at s.now at low high) }
{
    let lo = least_after(low, g);
    let hi = most_after(high, g);
    if hi < lo {
        return Err(Damage { at });
    }
    rest_at(s, at + 1, lo, hi, g)
}

// The number from low to high at a place of s; most take one byte.
pub fn number_at(s: &[u8], at: usize, low: u64, high: u64) -> Result<Coded, Damage>
    ensures { result ≡ plain (number_at s.now at low high) }
{
    if at < s.len() {
        let b = u64::from(s[at]);
        if b < 128 {
            if b < low {
                return Err(Damage { at });
            }
            if high < b {
                return Err(Damage { at });
            }
            return Ok(Coded {
                value: b,
                at: at + 1,
            });
        }
        return long_at(s, at, low, high, b - 128);
    }
    Err(Damage { at })
}

// A reader set on an image, which remembers how far it has read.
#[derive(Drop)]
pub struct Reader<'a> {
    pub image: &'a [u8],
    pub at: usize,
}

impl<'a> Reader<'a> {
    // A reader at the image's first byte.
    pub fn new(image: &'a [u8]) -> Reader<'a>
        ensures { (result.image ≡ image.entry) × (result.at ≡ 0) }
    {
        Reader { image, at: 0 }
    }
}

// How many bytes a number takes.
pub fn number_size(n: u64) -> usize
    ensures { result ≡ length (encode n) }
{
    if n < 128 { 1 } else { 1 + number_size(n / 128) }
}

// Puts the bytes of a number into the room, from a place on, and gives the place behind them.
pub fn put_number(room: &mut [u8], at: usize, n: u64) -> usize
    requires { at + length (encode n) ≤ length room.old }
    ensures { (result ≡ at + length (encode n)) × (room.new ≡ sets room.old at (encode n)) }
{
    // A while: how many groups go before the last shows as the number runs out.
    let mut x = n;
    let mut i = at;
    while 128 <= x {
        room[i] = (128 + x % 128) as u8;
        x = x / 128;
        i += 1;
    }
    room[i] = x as u8;
    i + 1
}

// Copies n bytes of s, from a place on, to a place of the room.
pub fn copy_bytes(room: &mut [u8], to: usize, s: &[u8], from: usize, n: usize)
    requires n_in_bounds { to + n ≤ length room.old }
    requires n_in_bounds_2 { from + n ≤ length s.now }
    ensures { room.new ≡ sets room.old to (take n (drop from s.now)) }
{
    // By index: the library calls no memmove, as copy_from_slice does.
    for i in 0..n {
        room[to + i] = s[from + i];
    }
}
