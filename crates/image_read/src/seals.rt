// The ranges of an image into a machine's block.
ghost use Rattle.std.specs.Prelude.{◌≡◌, length};
ghost use Rattle.unit_ranges.specs.Ranges.{block_bytes, put_seals};
ghost use Rattle.image_header.specs.Fields.{ranges_found};
ghost use Rattle.image_read.specs.Parts.{Stand, put_ranges};

use image_header::range_at;
use unit_element::Element;
use unit_ranges::{clear_slots, put_range};

// Puts the ranges that stand at a place of an image into the first slots.
fn put_ranges(s: &[u8], first: usize, count: usize, block: &mut [u8])
    requires block_len { length block.old ≡ block_bytes }
    requires stand { Stand s.now count first }
    ensures { block.new ≡ put_ranges 0 (ranges_found s.now count first) block.old }
{
    let mut at = first;
    for i in 0..count {
        let Ok(range) = range_at(s, at) else {
            return;
        };
        put_range(block, i, range.start, range.size);
        at = range.at;
    }
}

// Puts the ranges that stand at a place of an image into a block: their number, each of them, and zeros behind them.
pub fn put_seals(s: &[u8], first: usize, count: u64, block: &mut [u8])
    requires block_len { length block.old ≡ block_bytes }
    requires stand { Stand s.now count first }
    ensures { block.new ≡ put_seals (ranges_found s.now count first) block.old }
{
    u64::write(block, 80, count);
    put_ranges(s, first, count as usize, block);
    clear_slots(block, count as usize);
}
