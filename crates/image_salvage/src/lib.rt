// Salvage of an image that was cut or damaged: its header and the runs that are there whole, written as a fresh image. What is kept and what is
// written is defined in specs/. The first pass finds what is kept; only then the room is written, so that a refusal changes nothing.
#![tactic(auto)]

ghost use Rattle.std.specs.Prelude.{◌≡◌};
ghost use Rattle.image_salvage.specs.Salvage.{salvage, salvaged_as};

use fresh::rescue;
use image_check::scan::scan;
use image_header::ALL_READ;

mod fresh; // the fresh image

// What a salvage reports: the runs kept and announced, the place of the fault, and the length of the fresh image.
#[derive(Clone, Copy)]
pub struct Salvaged {
    pub kept: u64,
    pub announced: u64,
    pub place: u64,
    pub length: u64,
}

// Why a salvage is refused, with the place of the fault: in the header, or the room is too small.
#[derive(Clone, Copy)]
pub enum SalvageError {
    Damaged { place: u64 },
    NoRoom { place: u64 },
}

// Writes a fresh image of what is kept of one into the room. Refused, it changes nothing.
pub fn salvage(image: &[u8], room: &mut [u8]) -> Result<Salvaged, SalvageError>
    ensures { salvaged_as result room.new ≡ salvage image.now room.old }
{
    let found = scan(image);
    let fields = found.fields;
    if fields.next != ALL_READ {
        return Err(SalvageError::Damaged {
            place: fields.at as u64,
        });
    }
    rescue(image, found, room)
}
