// The runs of marked bytes: their number and size, and their bytes.
ghost use Rattle.std.specs.Prelude.{◌≡◌, ◌+◌, ◌^◌, ◌≤◌, ◌<◌, length};
ghost use Rattle.std.proofs.lemmas.List.Edits.{sets};
ghost use Rattle.image.specs.Cells.{runs, cells_of};
ghost use Rattle.image.specs.Images.{runs_bytes};
ghost use Rattle.image_write.specs.Parts.{TwoValued, TallyOk};

use crate::stretch::stretch_end;
use numbers_coded::{copy_bytes, number_size, put_number};

// The number of runs, and how many bytes they take in an image.
#[derive(Clone, Copy)]
pub struct Tally {
    pub runs: u64,
    pub bytes: usize,
}

// Counts the runs of marks.
pub fn tally_of(marks: &[u8]) -> Tally
    requires marks_len_bound { length marks.now < 2 ^ 32 }
    requires two_valued { TwoValued marks.now }
    ensures { TallyOk marks.now result.runs result.bytes }
{
    let mut at: usize = 0;
    let mut runs: u64 = 0;
    let mut bytes: usize = 0;
    // A while: a turn takes a gap and a run, of any length.
    while at < marks.len() {
        let first = stretch_end(marks, at, 0);
        if first == marks.len() {
            return Tally { runs, bytes };
        }
        let end = stretch_end(marks, first, 1);
        let size = end - first;
        bytes += number_size((first - at) as u64) + number_size(size as u64) + size;
        runs += 1;
        at = end;
    }
    Tally { runs, bytes }
}

// Puts the runs into the room, from a place on.
pub fn put_runs(room: &mut [u8], start: usize, registers: &[u8], marks: &[u8])
    requires marks_in_bounds { start + length (runs_bytes (runs (cells_of registers.now marks.now))) ≤ length room.old }
    requires registers_len { length registers.now ≡ length marks.now }
    requires two_valued { TwoValued marks.now }
    ensures { room.new ≡ sets room.old start (runs_bytes (runs (cells_of registers.now marks.now))) }
{
    let mut to = start;
    let mut at: usize = 0;
    // A while: a turn takes a gap and a run, of any length.
    while at < marks.len() {
        let first = stretch_end(marks, at, 0);
        if first == marks.len() {
            return;
        }
        let end = stretch_end(marks, first, 1);
        let size = end - first;
        to = put_number(room, to, (first - at) as u64);
        to = put_number(room, to, size as u64);
        copy_bytes(room, to, registers, first, size);
        to += size;
        at = end;
    }
}
