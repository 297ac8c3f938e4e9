// Salvage as C calls it, with its report in a block of bytes. What it answers and leaves is defined in specs/.
#![tactic(auto)]

ghost use Rattle.std.specs.Prelude.{◌≡◌, ℕ, [], ◌∷◌, length};
ghost use Rattle.c_blocks.specs.Blocks.{put_numbers};
ghost use Rattle.image_salvage.specs.Salvage.{salvaged_as};
ghost use Rattle.c_salvage.specs.SalvageCalls.{report_bytes, packed_salvage, salvaged_out, host_salvage};

use image_salvage::{SalvageError, Salvaged};
use unit_element::Element;

// The bytes of the report's block.
pub const REPORT_BYTES: usize = 24;

// The number of a refusal, with the place in the bits above it.
fn packed_error(e: SalvageError) -> u64
    ensures { let o = salvaged_as (Err e) [] in result ≡ packed_salvage o.answer.number o.place o.size }
{
    match e {
        SalvageError::NoRoom { place } => 14 + place % 0x1_0000_0000_0000 * 65536,
        SalvageError::Damaged { place } => 15 + place % 0x1_0000_0000_0000 * 65536,
    }
}

// The length of what is done in the bits above a 0.
fn packed_length(length: u64) -> u64
    ensures { (place : ℕ) → result ≡ packed_salvage 0 place length }
{
    length % 0x1_0000_0000_0000 * 65536
}

// The numbers of a report into its block.
fn put_report(report: &mut [u8], salvaged: Salvaged)
    requires { length report.old ≡ report_bytes }
    ensures { report.new ≡ put_numbers (salvaged.kept ∷ salvaged.announced ∷ salvaged.place ∷ []) report.old }
{
    u64::write(report, 0, salvaged.kept);
    u64::write(report, 8, salvaged.announced);
    u64::write(report, 16, salvaged.place);
}

// Writes a fresh image of what is kept of one, and the report of it. Refused, it changes nothing.
pub fn salvage(image: &[u8], room: &mut [u8], report: &mut [u8]) -> u64
    ensures { salvaged_out result room.new report.new ≡ host_salvage image.now room.old report.old }
{
    if report.len() != REPORT_BYTES {
        return 8;
    }
    match image_salvage::salvage(image, room) {
        Ok(salvaged) => {
            put_report(report, salvaged);
            packed_length(salvaged.length)
        }
        Err(e) => packed_error(e),
    }
}
