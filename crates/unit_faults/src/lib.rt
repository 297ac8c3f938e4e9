// Answer 8: whether a state is at fault.
#![tactic(auto)]

ghost use Rattle.std.specs.Prelude.{◌≡◌, true, ◌&&◌, eqb};
ghost use Rattle.machine.specs.Tests.{is_in};
ghost use Rattle.machine.specs.Geometry.{elens};
ghost use Rattle.machine.specs.Setting.{new_type};
ghost use Rattle.machine.specs.Faults.{sound, seals_fit};
ghost use Rattle.unit_ranges.specs.Ranges.{seals_in};
ghost use Rattle.unit_settings.specs.Parts.{numbers_sound};

use machine::Machine;
use unit_settings::kept_type;

// Whether the machine's numbers are ones that a machine can hold.
fn numbers_sound(m: Machine) -> bool
    ensures { result ≡ numbers_sound m }
{
    let rlen = m.rlen;
    let mlen = m.mlen;
    let elen = m.elen;
    if !unit_start::permitted_lengths(rlen, mlen, elen) {
        return false;
    }
    if !type_arises(elen, m.mtype) {
        return false;
    }
    let rows = mlen / rlen;
    let pitch = rlen / 8;
    if m.tile_m > rows {
        return false;
    }
    if m.tile_k > rows.min(pitch) {
        return false;
    }
    if m.tile_n > pitch {
        return false;
    }
    unit_start::is_rule(m.rule)
}

fn type_arises(elen: u64, mtype: u64) -> bool
    requires { is_in elen elens ≡ true }
    ensures { result ≡ eqb (new_type elen mtype) mtype }
{
    kept_type(elen, mtype) == mtype
}

// Whether the state is not at fault, with the ranges in a machine's block.
pub fn is_sound(m: Machine, seals: &[u8], registers: &[u8], marks: &[u8]) -> bool
    ensures { result ≡ sound m registers.now marks.now && seals_fit (seals_in seals.now) }
{
    if !numbers_sound(m) {
        return false;
    }
    if registers.len() as u64 != 2 * m.mlen {
        return false;
    }
    if marks.len() as u64 != 2 * m.mlen {
        return false;
    }
    if !unit_row::marks_sound(marks) {
        return false;
    }
    unit_ranges::is_fit(seals)
}
