// The check of an image: its header and its runs, up to the place of the first fault. What an image is, is defined in image/specs/.
#![tactic(auto)]

ghost use Rattle.std.specs.Prelude.{◌≡◌};
ghost use Rattle.image.specs.Reading.{check_image};
ghost use Rattle.image_check.specs.Parts.{verdict_in};

use image::ImageError;
use image_header::ALL_READ;
use scan::{Scanned, scan};

pub mod runs; // its runs
pub mod scan; // the reader that moves through both

// Whether an image of so many bytes, in which this was found, is one, or else the place of the fault.
pub fn verdict_of(found: Scanned, size: usize) -> Result<(), ImageError>
    ensures { result ≡ verdict_in found size }
{
    let fields = found.fields;
    let runs = found.runs;
    if fields.next == ALL_READ && runs.kept == fields.runs && runs.place == size {
        return Ok(());
    }
    Err(ImageError::Damaged {
        place: runs.place as u64,
    })
}

// Whether s is an image, or else the place of the first byte at which no image can go on.
pub fn check_image(s: &[u8]) -> Result<(), ImageError>
    ensures { result ≡ check_image s.now }
{
    verdict_of(scan(s), s.len())
}
