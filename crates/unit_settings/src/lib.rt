// Setting mtype and tile sizes.
#![tactic(auto)]

ghost use Rattle.std.specs.Prelude.{◌≡◌, true, false, [], ◌<◌, ◌≤◌, length};
ghost use Rattle.machine.specs.Geometry.{elens, with_scalar, state_of};
ghost use Rattle.machine.specs.Setting.{new_type, mill, maximum, sew, size_in};
ghost use Rattle.machine.specs.Refusals.{fitting};
ghost use Rattle.machine.specs.Step.{stepped};
ghost use Rattle.unit_settings.specs.Parts.{ours, with_type, with_size, size_stepped, size_scalars, cut_stepped, tile_stepped, tile_scalars, Ready, legal_types};
ghost use Rattle.machine.specs.Tests.{is_in};

use machine::{Dimension, Machine, Refusal};
use unit_scalars::{read_scalar, write_scalar};
use unit_start::chosen;

// The new mtype of a machine of this ELEN: an illegal value becomes 2^63.
pub fn kept_type(elen: u64, value: u64) -> u64
    requires { is_in elen elens ≡ true }
    ensures { result ≡ new_type elen value }
{
    if value <= 2 {
        return value;
    }
    if value == 8 {
        return value;
    }
    if elen == 32 {
        return 0x8000_0000_0000_0000;
    }
    if value == 3 {
        return value;
    }
    if value == 9 {
        return value;
    }
    0x8000_0000_0000_0000
}

// Whether mtype is illegal (mill).
pub fn is_mill(mtype: u64) -> bool
    ensures { result ≡ mill mtype }
{
    mtype / 0x8000_0000_0000_0000 % 2 == 1
}

// SEW in bytes, of an mtype that is not mill.
pub fn sew_bytes(mtype: u64) -> usize
    requires { is_in mtype legal_types ≡ true }
    ensures value { result ≡ sew mtype }
    ensures result_nonzero { (0 < result) × (result ≤ 8) }
{
    let msew = mtype % 8;
    if msew == 1 {
        return 2;
    }
    if msew == 2 {
        return 4;
    }
    if msew == 3 {
        return 8;
    }
    1
}

// The largest size of a dimension under mtype.
fn largest(m: Machine, dimension: Dimension) -> u64
    requires ready { Ready m }
    requires mtype_value { mill m.mtype ≡ false }
    ensures { result ≡ maximum (ours m) m.mtype dimension }
{
    let rows = m.mlen / m.rlen;
    let columns = m.rlen / 8 / (sew_bytes(m.mtype) as u64);
    match dimension {
        Dimension::DimensionM => rows,
        Dimension::DimensionK => rows.min(columns),
        Dimension::DimensionN => columns,
    }
}

fn size_of(m: Machine, dimension: Dimension) -> u64
    ensures { result ≡ size_in dimension (state_of m [] []) }
{
    match dimension {
        Dimension::DimensionM => m.tile_m,
        Dimension::DimensionK => m.tile_k,
        Dimension::DimensionN => m.tile_n,
    }
}

// Whether a size is at most its maximum under mtype.
pub fn fits(m: Machine, dimension: Dimension) -> bool
    requires ready { Ready m }
    requires mtype_value { mill m.mtype ≡ false }
    ensures { result ≡ (fitting (ours m) (state_of m [] []) dimension).holds }
{
    size_of(m, dimension) <= largest(m, dimension)
}

// The machine's numbers with another mtype.
pub fn with_type(m: Machine, mtype: u64) -> Machine
    ensures { result ≡ with_type m mtype }
{
    let mut next = m;
    next.mtype = mtype;
    next
}

fn with_size(m: Machine, dimension: Dimension, size: u64) -> Machine
    ensures { result ≡ with_size m dimension size }
{
    let mut next = m;
    match dimension {
        Dimension::DimensionM => {
            next.tile_m = size;
        }
        Dimension::DimensionK => {
            next.tile_k = size;
        }
        Dimension::DimensionN => {
            next.tile_n = size;
        }
    }
    next
}

// A new mtype, which rd receives too.
pub fn set_type(m: Machine, scalars: &mut [u64], rd: usize, value: u64) -> Machine
    requires elens_value { is_in m.elen elens ≡ true }
    requires rd_in_bounds { rd < length scalars.old }
    ensures value { result ≡ with_type m (new_type m.elen value) }
    ensures scalars_after { scalars.new ≡ with_scalar scalars.old rd (new_type m.elen value) }
{
    let kept = kept_type(m.elen, value);
    write_scalar(scalars, rd, kept);
    with_type(m, kept)
}

// The machine's numbers after a size was asked for, of which it gets what its rule gives; under mill they stay.
pub fn sized(m: Machine, dimension: Dimension, asked: u64) -> Machine
    requires { Ready m }
    ensures { result ≡ (size_stepped m dimension asked).machine }
{
    if is_mill(m.mtype) {
        return m;
    }
    let size = chosen(m.rule, largest(m, dimension), asked);
    with_size(m, dimension, size)
}

// A size that is asked, of which the machine gets what its rule gives; rd receives that too.
pub fn set_size(
    m: Machine,
    scalars: &mut [u64],
    dimension: Dimension,
    rd: usize,
    asked: u64,
) -> Result<Machine, Refusal>
    requires ready { Ready m }
    requires rd_in_bounds { rd < length scalars.old }
    ensures value { stepped m result ≡ size_stepped m dimension asked }
    ensures scalars_after { scalars.new ≡ size_scalars m dimension asked rd scalars.old }
{
    if is_mill(m.mtype) {
        return Err(Refusal::IllegalType);
    }
    let size = chosen(m.rule, largest(m, dimension), asked);
    write_scalar(scalars, rd, size);
    Ok(with_size(m, dimension, size))
}

// Nothing is asked: the size is cut to the largest.
fn cut_size(m: Machine, dimension: Dimension) -> Result<Machine, Refusal>
    requires { Ready m }
    ensures { stepped m result ≡ cut_stepped m dimension }
{
    if is_mill(m.mtype) {
        return Err(Refusal::IllegalType);
    }
    let size = size_of(m, dimension).min(largest(m, dimension));
    Ok(with_size(m, dimension, size))
}

// The largest size is asked.
fn set_largest(
    m: Machine,
    scalars: &mut [u64],
    dimension: Dimension,
    rd: usize,
) -> Result<Machine, Refusal>
    requires ready { Ready m }
    requires rd_in_bounds { rd < length scalars.old }
    ensures value { stepped m result ≡ size_stepped m dimension (maximum (ours m) m.mtype dimension) }
    ensures scalars_after { scalars.new ≡ size_scalars m dimension (maximum (ours m) m.mtype dimension) rd scalars.old }
{
    if is_mill(m.mtype) {
        return Err(Refusal::IllegalType);
    }
    let size = largest(m, dimension);
    set_size(m, scalars, dimension, rd, size)
}

// A tile setting with rs1: the scalar, the largest, or nothing is asked.
pub fn set_tile(
    m: Machine,
    scalars: &mut [u64],
    dimension: Dimension,
    rd: usize,
    rs1: usize,
) -> Result<Machine, Refusal>
    requires ready { Ready m }
    requires rd_in_bounds { (rd < length scalars.old) × (rs1 < length scalars.old) }
    ensures value { stepped m result ≡ tile_stepped m dimension rd rs1 scalars.old }
    ensures scalars_after { scalars.new ≡ tile_scalars m dimension rd rs1 scalars.old }
{
    if rs1 != 0 {
        let asked = read_scalar(scalars, rs1);
        return set_size(m, scalars, dimension, rd, asked);
    }
    if rd != 0 {
        return set_largest(m, scalars, dimension, rd);
    }
    cut_size(m, dimension)
}
