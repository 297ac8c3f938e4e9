// The runs of an image into registers and marks.
ghost use Rattle.std.specs.Prelude.{◌≡◌, ◌+◌, ◌*◌, ◌^◌, ◌≤◌, ◌<◌, length};
ghost use Rattle.image.specs.Cells.{spread, over};
ghost use Rattle.image_check.specs.Parts.{runs_verdict};
ghost use Rattle.image_read.specs.Parts.{body_at, ones};

use image_check::runs::next_run;
use numbers::smaller;
use numbers_coded::copy_bytes;

// Fills the runs that a scan found sound into registers and marks.
pub fn fill_runs(s: &[u8], start: usize, count: u64, registers: &mut [u8], marks: &mut [u8])
    requires start_in_bounds { start ≤ length s.now }
    requires count_in_bounds { 2 * count ≤ length registers.old + 1 }
    requires registers_len_bound { length registers.old < 2 ^ 32 }
    requires marks_len { length marks.old ≡ length registers.old }
    requires registers_value { runs_verdict s.now start count 0 (length registers.old) ≡ Ok tt }
    ensures registers_after { registers.new
        ≡ over (spread (length registers.old) (body_at s.now start count 0 (length registers.old))) registers.old }
    ensures marks_after { marks.new
        ≡ over (spread (length registers.old) (ones (body_at s.now start count 0 (length registers.old)))) marks.old }
{
    let mut at = start;
    let mut to: usize = 0;
    for k in 0..count {
        let room = (registers.len() - to) as u64;
        let Ok(run) = next_run(s, at, count - k, smaller(k, 1), room) else {
            return;
        };
        let from = run.at;
        let n = run.size as usize;
        let first = to + run.gap as usize;
        copy_bytes(registers, first, s, from, n);
        marks[first..first + n].fill(1);
        at = from + n;
        to = first + n;
    }
}
