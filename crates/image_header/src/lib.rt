// The header of an image: its numbers, field by field, up to and with the number of runs. What a field may be is a row of a table, by the
// numbers read so far.
#![tactic(auto)]

ghost use Rattle.std.specs.Prelude.{◌≡◌, ◌^◌, ◌≤◌, ◌<◌};
ghost use Rattle.image.specs.ImageFormat.{top_rlen, top_mlen, least_mlen};
ghost use Rattle.numbers_coded.specs.At.{plain};
ghost use Rattle.image_header.specs.Fields.{mtype_at, count_at, plain_range, range_at, ranges_at, least_rule, row_of, RowOk, number_in, put_field, after, field_from, first_field, FieldsOk, Ready, rested, machine_of};

use machine::Machine;
use numbers::smaller;
use numbers_coded::{Coded, Damage, number_at};

// The number behind the last field, and the one that stands for a fault.
pub const ALL_READ: usize = 12;

const AT_FAULT: usize = 13;

// What may stand in a field.
#[derive(Clone, Copy)]
pub enum Row {
    Span { low: u64, high: u64 }, // a number from low to high
    Mtype { elen: u64 }, // an mtype, by the exponent of ELEN
    Count, // how many ranges there are
    Ranges { count: u64 }, // so many ranges: the number is their place
}

impl Row {
    // A number from low to high.
    fn span(low: u64, high: u64) -> Row
        ensures { result ≡ Row.Span low high }
    {
        Row::Span { low, high }
    }
}

// The fields read so far: the number of the next one and its row, and the place behind them; at a fault the place of it. A field that is not
// read yet, or that the version does not have, is what it is in `first_field`.
#[derive(Clone, Copy)]
pub struct Fields {
    pub next: usize,
    pub at: usize,
    pub row: Row,
    pub version: u64, // field 0
    pub rule: u64, // 1
    pub elen: u64, // 2: the exponents of ELEN,
    pub rlen: u64, // 3: RLEN
    pub mlen: u64, // 4: and MLEN
    pub mtype: u64, // 5
    pub tile_m: u64, // 6
    pub tile_k: u64, // 7
    pub tile_n: u64, // 8
    pub seals: u64, // 9: how many ranges there are,
    pub seals_at: u64, // 10: their place,
    pub runs: u64, // 11: and how many runs
}

// A range of an image, and the place behind it.
#[derive(Clone, Copy)]
pub struct RangeRead {
    pub start: u64,
    pub size: u64,
    pub at: usize,
}

// The largest exponent of RLEN, by the version.
fn top_rlen(version: u64) -> u64
    ensures { result ≡ top_rlen version }
{
    if version < 3 { 9 } else { 12 }
}

// The largest exponent of MLEN.
fn top_mlen(version: u64) -> u64
    ensures { result ≡ top_mlen version }
{
    if version < 3 { 12 } else { 16 }
}

// The least exponent of MLEN: of version 3 with ELEN 32 and an RLEN of the old bounds, one beyond them.
fn least_mlen(version: u64, elen: u64, rlen: u64) -> u64
    requires { rlen ≤ 12 }
    ensures { result ≡ least_mlen version elen rlen }
{
    if version != 3 {
        return rlen + 1;
    }
    if elen != 5 {
        return rlen + 1;
    }
    if rlen >= 10 {
        return rlen + 1;
    }
    13
}

// The mtype at a place of s, by the exponent of ELEN.
fn mtype_at(s: &[u8], elen: u64, at: usize) -> Result<Coded, Damage>
    requires { (5 ≤ elen) × (elen ≤ 6) }
    ensures { result ≡ plain (mtype_at s.now elen at) }
{
    if at < s.len() {
        let b = u64::from(s[at]);
        if b < 128 {
            if b <= elen - 3 {
                return Ok(Coded {
                    value: b,
                    at: at + 1,
                });
            }
            if b < 8 {
                return Err(Damage { at });
            }
            if b <= 8 + (elen - 5) {
                return Ok(Coded {
                    value: b,
                    at: at + 1,
                });
            }
            return Err(Damage { at });
        }
        if b == 128 {
            return number_at(s, at, 0x8000_0000_0000_0000, 0x8000_0000_0000_0000);
        }
        return Err(Damage { at });
    }
    Err(Damage { at })
}

// The number of ranges of version 4: none, or two to eight.
fn count_at(s: &[u8], at: usize) -> Result<Coded, Damage>
    ensures { result ≡ plain (count_at s.now at) }
{
    if at < s.len() {
        if u64::from(s[at]) == 1 {
            return Err(Damage { at });
        }
        return number_at(s, at, 0, 8);
    }
    Err(Damage { at })
}

// A range's start and length.
pub fn range_at(s: &[u8], at: usize) -> Result<RangeRead, Damage>
    ensures { result ≡ plain_range (range_at s.now at) }
{
    let start = number_at(s, at, 0, 0xffff_ffff_ffff_ffff)?;
    let size = number_at(s, start.at, 0, 0xffff_ffff_ffff_ffff - start.value)?;
    Ok(RangeRead {
        start: start.value,
        size: size.value,
        at: size.at,
    })
}

// So many ranges: their place, and the one behind them.
fn ranges_at(s: &[u8], count: u64, start: usize) -> Result<Coded, Damage>
    ensures { result ≡ plain (ranges_at s.now count start) }
{
    let mut at = start;
    for _ in 0..count {
        at = range_at(s, at)?.at;
    }
    Ok(Coded {
        value: start as u64,
        at,
    })
}

// Two to the power of k.
pub fn power(k: u64) -> u64
    requires { k ≤ 16 }
    ensures { result ≡ 2 ^ k }
{
    1 << k
}

// The least rule, by the version.
fn least_rule(version: u64) -> u64
    ensures { result ≡ least_rule version }
{
    if version == 2 { 1 } else { 0 }
}

// The row of the next field.
fn row_of(t: Fields) -> Row
    requires { FieldsOk t }
    ensures { result ≡ row_of t }
{
    match t.next {
        0 => Row::span(1, 4),
        1 => Row::span(least_rule(t.version), 1),
        2 => Row::span(5, 6),
        3 => Row::span(t.elen + 1, top_rlen(t.version)),
        4 => Row::span(least_mlen(t.version, t.elen, t.rlen), top_mlen(t.version)),
        5 => Row::Mtype { elen: t.elen },
        6 => Row::span(0, power(t.mlen - t.rlen)),
        7 => Row::span(0, smaller(power(t.mlen - t.rlen), power(t.rlen - 3))),
        8 => Row::span(0, power(t.rlen - 3)),
        9 => Row::Count,
        10 => Row::Ranges { count: t.seals },
        _ => Row::span(0, power(t.mlen)),
    }
}

// The number at a place of s, of those of a row.
fn number_in(s: &[u8], at: usize, row: Row) -> Result<Coded, Damage>
    requires { RowOk row }
    ensures { result ≡ plain (number_in s.now at row) }
{
    match row {
        Row::Span { low, high } => number_at(s, at, low, high),
        Row::Mtype { elen } => mtype_at(s, elen, at),
        Row::Count => count_at(s, at),
        Row::Ranges { count } => ranges_at(s, count, at),
    }
}

// The fields with the next one.
fn put_field(t: Fields, n: u64) -> Fields
    requires { t.next < 12 }
    ensures { result ≡ put_field t n }
{
    match t.next {
        0 => Fields { version: n, ..t },
        1 => Fields { rule: n, ..t },
        2 => Fields { elen: n, ..t },
        3 => Fields { rlen: n, ..t },
        4 => Fields { mlen: n, ..t },
        5 => Fields { mtype: n, ..t },
        6 => Fields { tile_m: n, ..t },
        7 => Fields { tile_k: n, ..t },
        8 => Fields { tile_n: n, ..t },
        9 => Fields { seals: n, ..t },
        10 => Fields { seals_at: n, ..t },
        _ => Fields { runs: n, ..t },
    }
}

// The field behind field f: version 1 has no rule, 1 and 2 have no ELEN, and only 4 says how many ranges there are.
fn after(f: usize, version: u64) -> usize
    requires { f < 12 }
    ensures { result ≡ after f version }
{
    if f == 0 {
        return if version == 1 { 3 } else { 1 };
    }
    if f == 1 {
        return if version == 2 { 3 } else { 2 };
    }
    if f == 8 {
        return if version == 4 { 9 } else { 10 };
    }
    f + 1
}

// Reads the next field at a place of s, and finds the row of the one behind it.
pub fn field_from(s: &[u8], at: usize, t: Fields) -> Fields
    requires { (t.next < 12) × Ready t }
    ensures { result ≡ field_from s.now at t }
{
    let n = match number_in(s, at, t.row) {
        Ok(n) => n,
        Err(damage) => {
            return Fields {
                next: AT_FAULT,
                at: damage.at,
                ..t
            };
        }
    };
    let x = put_field(t, n.value);
    let y = Fields {
        next: after(t.next, x.version),
        at: n.at,
        ..x
    };
    Fields {
        row: row_of(y),
        ..y
    }
}

// Before the first field.
pub fn first_field() -> Fields
    ensures { result ≡ first_field }
{
    Fields {
        row: Row::span(1, 4),
        next: 0,
        at: 0,
        version: 0,
        rule: 0,
        elen: 5,
        rlen: 6,
        mlen: 16,
        mtype: 0,
        tile_m: 0,
        tile_k: 0,
        tile_n: 0,
        seals: 1,
        seals_at: 0,
        runs: 0,
    }
}

// The fields without a row.
pub fn rested(t: Fields) -> Fields
    ensures { result ≡ rested t }
{
    Fields {
        row: Row::span(0, 0),
        ..t
    }
}

// The machine of a header.
pub fn machine_of(t: Fields) -> Machine
    requires { FieldsOk t }
    ensures { result ≡ machine_of t }
{
    Machine {
        rlen: power(t.rlen),
        mlen: power(t.mlen),
        mtype: t.mtype,
        tile_m: t.tile_m,
        tile_k: t.tile_k,
        tile_n: t.tile_n,
        rule: t.rule,
        elen: power(t.elen),
    }
}
