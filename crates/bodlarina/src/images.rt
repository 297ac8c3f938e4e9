// Images in the C interface.
ghost use Rattle.std.specs.Prelude.{◌≡◌};
ghost use Rattle.c_image.specs.ImageCalls.{host_image_size, written_out, host_image_write, read_out, host_image_read};
ghost use Rattle.c_salvage.specs.SalvageCalls.{salvaged_out, host_salvage};

// The length of a machine's image.
#[unsafe(no_mangle)]
pub extern "C" fn bodlarina_image_size(machine: &[u8], registers: &[u8], marks: &[u8]) -> u64
    ensures { result ≡ host_image_size machine.now registers.now marks.now }
{
    c_image::size(machine, registers, marks)
}

// Writes a machine's image.
#[unsafe(no_mangle)]
pub extern "C" fn bodlarina_image_write(
    machine: &[u8],
    registers: &[u8],
    marks: &[u8],
    image: &mut [u8],
) -> u64
    ensures { written_out result image.new ≡ host_image_write machine.now registers.now marks.now image.old }
{
    c_image::write(machine, registers, marks, image)
}

// Reads an image, and writes its machine's numbers into the machine block.
#[unsafe(no_mangle)]
pub extern "C" fn bodlarina_image_read(
    image: &[u8],
    machine: &mut [u8],
    registers: &mut [u8],
    marks: &mut [u8],
) -> u64
    ensures { read_out result machine.new registers.new marks.new
        ≡ host_image_read image.now machine.old registers.old marks.old }
{
    c_image::read(image, machine, registers, marks)
}

// Writes a fresh image of what is kept of one that was cut or damaged, and the report of it.
#[unsafe(no_mangle)]
pub extern "C" fn bodlarina_image_salvage(image: &[u8], room: &mut [u8], report: &mut [u8]) -> u64
    ensures { salvaged_out result room.new report.new ≡ host_salvage image.now room.old report.old }
{
    c_salvage::salvage(image, room, report)
}
