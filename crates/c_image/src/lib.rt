// The size, the writing and the reading of images as C calls them, with the machine in a block of bytes. What each answers and leaves is
// defined in specs/.
#![tactic(auto)]

ghost use Rattle.std.specs.Prelude.{◌≡◌};
ghost use Rattle.image.specs.Answers.{image_reply};
ghost use Rattle.image.specs.Writing.{size_reply};
ghost use Rattle.c_image.specs.ImageCalls.{packed_reply, host_image_size, written_out, host_image_write, read_out, host_image_read};

use c_blocks::{MACHINE_BYTES, machine_of, put_machine};
use image::ImageError;

// The number of a refusal, with the place that it names in the bits above it.
fn packed_error(e: ImageError) -> u64
    ensures { result ≡ packed_reply (image_reply e) 0 }
{
    match e {
        ImageError::BadArguments => 8,
        ImageError::NoRoom => 14,
        ImageError::Damaged { place } => 15 + place % 0x1_0000_0000_0000 * 65536,
    }
}

// The length of what is done in the bits above a 0, or a refusal.
fn packed_reply(reply: Result<u64, ImageError>) -> u64
    ensures { result ≡ packed_reply (size_reply reply).answer (size_reply reply).size }
{
    match reply {
        Ok(size) => size % 0x1_0000_0000_0000 * 65536,
        Err(e) => packed_error(e),
    }
}

// The length of a machine's image.
pub fn size(machine: &[u8], registers: &[u8], marks: &[u8]) -> u64
    ensures { result ≡ host_image_size machine.now registers.now marks.now }
{
    if machine.len() != MACHINE_BYTES {
        return packed_error(ImageError::BadArguments);
    }
    let m = machine_of(machine);
    packed_reply(image_write::image_size(m, machine, registers, marks))
}

// Writes a machine's image.
pub fn write(machine: &[u8], registers: &[u8], marks: &[u8], image: &mut [u8]) -> u64
    ensures { written_out result image.new ≡ host_image_write machine.now registers.now marks.now image.old }
{
    if machine.len() != MACHINE_BYTES {
        return packed_error(ImageError::BadArguments);
    }
    let m = machine_of(machine);
    packed_reply(image_write::write_image(m, machine, registers, marks, image))
}

// Reads an image, and writes its machine's numbers into the machine block.
pub fn read(image: &[u8], machine: &mut [u8], registers: &mut [u8], marks: &mut [u8]) -> u64
    ensures { read_out result machine.new registers.new marks.new
        ≡ host_image_read image.now machine.old registers.old marks.old }
{
    match image_read::read_image(image, machine, registers, marks) {
        Ok(numbers) => {
            put_machine(machine, numbers);
            packed_reply(Ok(0))
        }
        Err(e) => packed_error(e),
    }
}
