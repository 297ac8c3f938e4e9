// The thirty-two scalars. Slot 0 is read as 0 and is never written.
#![tactic(auto)]

ghost use Rattle.std.specs.Prelude.{◌≡◌, ◌<◌, length};
ghost use Rattle.machine.specs.Geometry.{scalar, with_scalar};

// Slot 0 is read as 0.
pub fn read_scalar(scalars: &[u64], slot: usize) -> u64
    requires { slot < length scalars.now }
    ensures { result ≡ scalar scalars.now slot }
{
    if slot == 0 {
        return 0;
    }
    scalars[slot]
}

// Slot 0 is never written.
pub fn write_scalar(scalars: &mut [u64], slot: usize, value: u64)
    requires { slot < length scalars.old }
    ensures { scalars.new ≡ with_scalar scalars.old slot value }
{
    if slot != 0 {
        scalars[slot] = value;
    }
}
