// Reading an image: the machine that it makes of the lent buffers. What an image is, and what reading leaves, is defined in image/specs/. The
// check finds the place of a fault; only then the buffers are filled, so that a refusal changes nothing.
#![tactic(auto)]

ghost use Rattle.std.specs.Prelude.{◌≡◌, IfOk};
ghost use Rattle.image.specs.Reading.{read_image};
ghost use Rattle.image_read.specs.Blocks.{restored_as, read_block};
ghost use Rattle.image_read.specs.Parts.{Stand, found_as};

use fill::fill_runs;
use image::ImageError;
use image_check::scan::scan;
use image_check::{check_image, verdict_of};
use image_header::machine_of;
use machine::Machine;
use seals::put_seals;

mod fill; // runs into registers and marks
mod seals; // ranges into a block

// What was read: the machine, how many ranges it holds and where they stand in the image.
#[derive(Clone, Copy)]
pub struct Found {
    pub machine: Machine,
    pub seals: u64,
    pub seals_at: usize,
}

// Reads an image into lent registers and marks. Refused, it changes nothing.
fn read_runs(image: &[u8], registers: &mut [u8], marks: &mut [u8]) -> Result<Found, ImageError>
    ensures marks_after { found_as result image.now registers.new marks.new
        ≡ read_image image.now registers.old marks.old }
    ensures stand { IfOk result (λ found. Stand image.now found.seals found.seals_at) }
{
    let found = scan(image);
    verdict_of(found, image.len())?;
    let fields = found.fields;
    let machine = machine_of(fields);
    let total = 2 * machine.mlen;
    if registers.len() as u64 != total {
        return Err(ImageError::BadArguments);
    }
    if marks.len() as u64 != total {
        return Err(ImageError::BadArguments);
    }
    marks.fill(0);
    fill_runs(image, fields.at, fields.runs, registers, marks);
    Ok(Found {
        machine,
        seals: fields.seals,
        seals_at: fields.seals_at as usize,
    })
}

// Reads an image into a machine's block, registers and marks: of the block it writes the ranges, and returns the machine. Refused, it changes
// nothing.
pub fn read_image(
    image: &[u8],
    block: &mut [u8],
    registers: &mut [u8],
    marks: &mut [u8],
) -> Result<Machine, ImageError>
    ensures { restored_as result block.new registers.new marks.new
        ≡ read_block image.now block.old registers.old marks.old }
{
    if block.len() != unit_ranges::BLOCK_BYTES {
        check_image(image)?;
        return Err(ImageError::BadArguments);
    }
    let found = read_runs(image, registers, marks)?;
    put_seals(image, found.seals_at, found.seals, block);
    Ok(found.machine)
}
