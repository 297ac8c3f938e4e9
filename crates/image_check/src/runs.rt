// The runs of an image.
ghost use Rattle.std.specs.Prelude.{◌≡◌, ◌+◌, ◌*◌, ◌^◌, ◌≤◌, ◌<◌, length};
ghost use Rattle.image_check.specs.Parts.{plain_run, next_at, RunsOk, run_from};

use numbers::smaller;
use numbers_coded::{Damage, number_at};

// The gap and the length of a run and the place of its bytes, all of which are there.
#[derive(Clone, Copy)]
pub struct RunRead {
    pub gap: u64,
    pub size: u64,
    pub at: usize,
}

// The next of so many runs in so many bytes of room.
pub fn next_run(s: &[u8], at: usize, left: u64, least: u64, room: u64) -> Result<RunRead, Damage>
    requires at_in_bounds { at ≤ length s.now }
    requires left_nonzero { 0 < left }
    requires least_bound { least ≤ 1 }
    requires left_bound { least + 2 * left ≤ room + 1 }
    requires room_bound { room < 2 ^ 32 }
    ensures { result ≡ plain_run (next_at s.now at left least room) }
{
    let later = 2 * (left - 1);
    let gap = number_at(s, at, least, room - (1 + later))?;
    let size = number_at(s, gap.at, 1, room - (gap.value + later))?;
    if s.len() - size.at < size.value as usize {
        return Err(Damage { at: s.len() });
    }
    Ok(RunRead {
        gap: gap.value,
        size: size.value,
        at: size.at,
    })
}

// The runs read so far: how many are left to read, none behind a fault; how many are there whole, and the place behind them; the bytes of room
// that are left; and the place of the fault, or that behind the runs.
#[derive(Clone, Copy)]
pub struct Runs {
    pub left: u64,
    pub kept: u64,
    pub room: u64,
    pub at: usize,
    pub place: usize,
}

// Reads the next run at a place of s.
pub fn run_from(s: &[u8], at: usize, t: Runs) -> Runs
    requires { (0 < t.left) × RunsOk s.now at t }
    ensures { result ≡ run_from s.now at t }
{
    let run = match next_run(s, at, t.left, smaller(t.kept, 1), t.room) {
        Ok(run) => run,
        Err(damage) => {
            return Runs {
                left: 0,
                kept: t.kept,
                room: t.room,
                at,
                place: damage.at,
            };
        }
    };
    let end = run.at + run.size as usize;
    Runs {
        left: t.left - 1,
        kept: t.kept + 1,
        room: t.room - (run.gap + run.size),
        at: end,
        place: end,
    }
}
