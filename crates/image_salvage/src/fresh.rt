// The fresh image of what is kept: the numbers before the number of runs as they are, the number of the runs that are kept, and these.
ghost use Rattle.std.specs.Prelude.{◌≡◌, ◌++◌, ◌+◌, ◌-◌, ◌*◌, ◌^◌, ◌≤◌, ◌<◌, length, take, drop};
ghost use Rattle.std.proofs.lemmas.List.Edits.{sets};
ghost use Rattle.numbers_format.specs.Numbers.{encode};
ghost use Rattle.image_check.specs.Parts.{scan_in};
ghost use Rattle.image_salvage.specs.Salvage.{salvaged_as};
ghost use Rattle.image_salvage.specs.Parts.{rescued};

use crate::{SalvageError, Salvaged};
use image_check::scan::Scanned;
use numbers_coded::{copy_bytes, number_size, put_number};

// Writes the first bytes of s, a number, and the n bytes of s from a place on into the room.
fn put_fresh(s: &[u8], first: usize, number: u64, at: usize, n: usize, room: &mut [u8])
    requires first_in_bounds { (first ≤ length s.now) × (at + n ≤ length s.now) }
    requires n_in_bounds { first + length (encode number) + n ≤ length room.old }
    ensures { room.new ≡ sets room.old 0 (take first s.now ++ (encode number ++ take n (drop at s.now))) }
{
    copy_bytes(room, 0, s, 0, first);
    let to = put_number(room, first, number);
    copy_bytes(room, to, s, at, n);
}

// Writes a fresh image of what is kept of s, in which this was found.
pub fn rescue(s: &[u8], found: Scanned, room: &mut [u8]) -> Result<Salvaged, SalvageError>
    requires found_value { found ≡ scan_in s.now }
    requires next_value { found.fields.next ≡ 12 }
    ensures { salvaged_as result room.new
        ≡ rescued s.now found.fields.at found.fields.runs (2 * 2 ^ found.fields.mlen) room.old }
{
    let fields = found.fields;
    let tally = found.runs;
    let at = fields.at;
    let place = tally.place as u64;
    let first = at - number_size(fields.runs);
    let n = tally.at - at;
    let size = first + number_size(tally.kept) + n;
    if room.len() < size {
        return Err(SalvageError::NoRoom { place });
    }
    put_fresh(s, first, tally.kept, at, n, room);
    Ok(Salvaged {
        kept: tally.kept,
        announced: fields.runs,
        place,
        length: size as u64,
    })
}
