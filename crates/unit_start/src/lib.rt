// The lengths, the rule and the sealed ranges that a machine can have, what it gives of a size by its rule, and its start.
#![tactic(auto)]

ghost use Rattle.std.specs.Prelude.{◌≡◌, ◌&&◌, ◌*◌, eqb, ltb, length, replicate};
ghost use Rattle.machine.specs.Tests.{is_in};
ghost use Rattle.machine.specs.Geometry.{permitted, rlens, mlens, elens};
ghost use Rattle.machine.specs.Setting.{chosen};
ghost use Rattle.machine.specs.Starting.{is_rule, seal_ends, seals_end, ranges, startable, start_machine, started, started_as, no_machine, fresh_machine};

use machine::{Machine, Refusal};

fn is_rlen(x: u64) -> bool
    ensures { result ≡ is_in x rlens }
{
    matches!(x, 64 | 128 | 256 | 512 | 1024 | 2048 | 4096)
}

fn is_mlen(x: u64) -> bool
    ensures { result ≡ is_in x mlens }
{
    matches!(
        x,
        128 | 256 | 512 | 1024 | 2048 | 4096 | 8192 | 16384 | 32768 | 65536
    )
}

fn is_elen(x: u64) -> bool
    ensures { result ≡ is_in x elens }
{
    matches!(x, 32 | 64)
}

// Whether a machine may have these lengths and this ELEN.
#[tactic(auto, unfolding(machine::specs::Geometry::permitted))]
pub fn permitted_lengths(rlen: u64, mlen: u64, elen: u64) -> bool
    ensures { result ≡ permitted rlen mlen elen }
{
    is_rlen(rlen) && is_mlen(mlen) && rlen < mlen && is_elen(elen) && elen < rlen
}

// Whether there is such a rule.
pub fn is_rule(rule: u64) -> bool
    ensures { result ≡ is_rule rule }
{
    rule <= 1
}

// Whether a machine of this rule halves what is asked: it lies strictly between the maximum and twice it.
fn is_halved(rule: u64, most: u64, asked: u64) -> bool
    ensures { result ≡ eqb rule 1 && (ltb most asked && ltb asked (2 * most)) }
{
    rule == 1 && asked > most && asked - most < most
}

// The size that a machine of this rule gives, of its maximum and what is asked.
pub fn chosen(rule: u64, most: u64, asked: u64) -> u64
    ensures { result ≡ chosen rule most asked }
{
    if is_halved(rule, most, asked) {
        return asked / 2 + asked % 2;
    }
    asked.min(most)
}

// Whether a seal's end does not exceed 2^64 - 1.
pub fn seal_ends(start: u64, length: u64) -> bool
    ensures { result ≡ seal_ends start length }
{
    length <= 0xffff_ffff_ffff_ffff - start
}

// Whether the ranges in these numbers, start and length of each in turn, all end so.
fn seals_end(seals: &[u64]) -> bool
    ensures { result ≡ seals_end (ranges seals.now) }
{
    let mut rest = seals;
    while let [start, length, others @ ..] = rest {
        if !seal_ends(*start, *length) {
            return false;
        }
        rest = others;
    }
    true
}

// No machine: zeros.
pub fn no_machine() -> Machine
    ensures { result ≡ no_machine }
{
    Machine {
        rlen: 0,
        mlen: 0,
        mtype: 0,
        tile_m: 0,
        tile_k: 0,
        tile_n: 0,
        rule: 0,
        elen: 0,
    }
}

fn fresh_machine(rlen: u64, mlen: u64, elen: u64, rule: u64) -> Machine
    ensures { result ≡ fresh_machine rlen mlen elen rule }
{
    Machine {
        rlen,
        mlen,
        mtype: 0,
        tile_m: 0,
        tile_k: 0,
        tile_n: 0,
        rule,
        elen,
    }
}

// Sets every mark to 0. By fill, a start takes 1.07 times as long.
fn clear(marks: &mut [u8])
    ensures { marks.new ≡ replicate (length marks.old) 0 }
{
    for mark in marks.iter_mut() {
        *mark = 0;
    }
}

// Whether a machine of these lengths and this ELEN can be started on so many register bytes and marks, with this rule and these ranges,
// but for their number.
#[tactic(auto, unfolding(machine::specs::Starting::startable))]
fn is_startable(
    rlen: u64,
    mlen: u64,
    elen: u64,
    rule: u64,
    seals: &[u64],
    registers: &[u8],
    marks: &[u8],
) -> bool
    ensures { result ≡ startable rlen mlen elen rule seals.now registers.now marks.now }
{
    permitted_lengths(rlen, mlen, elen)
        && registers.len() as u64 == 2 * mlen
        && marks.len() as u64 == 2 * mlen
        && is_rule(rule)
        && seals.len() % 2 == 0
        && seals_end(seals)
}

// Starts a machine on the lent register bytes and marks, with an ELEN, a rule and sealed ranges of memory, start and length of each in
// turn. Refused, it changes nothing.
pub fn start(
    rlen: u64,
    mlen: u64,
    elen: u64,
    rule: u64,
    seals: &[u64],
    registers: &[u8],
    marks: &mut [u8],
) -> Result<Machine, Refusal>
    ensures { started_as (started result) seals.now registers.now marks.new
        ≡ start_machine rlen mlen elen rule seals.now registers.now marks.old }
{
    if !is_startable(rlen, mlen, elen, rule, seals, registers, marks) {
        return Err(Refusal::BadArguments);
    }
    if seals.len() > 16 {
        return Err(Refusal::TooManySeals);
    }
    clear(marks);
    Ok(fresh_machine(rlen, mlen, elen, rule))
}
