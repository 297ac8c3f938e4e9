// Binary32 numbers and the bits that registers and memory hold of them; one multiply and add.
// The bits of a NaN that the host's processor makes count for nothing: every NaN is read as one value, and stored as 0x7FC00000.
#![tactic(auto)]

ghost use Rattle.std.specs.Prelude.{◌≡◌};
ghost use Rattle.std.specs.Float.{binary32};
ghost use Rattle.std.specs.Float.Ieee.{nan_bits};
ghost use Rattle.numbers.specs.Binary32.{value_of, settled, multiply_add};

// Whether the bits are a NaN's.
fn is_nan_bits(bits: u32) -> bool
    ensures { result ≡ nan_bits binary32 bits }
{
    bits % 0x8000_0000 > 0x7f80_0000
}

// The value of an element.
pub fn value_of(bits: u32) -> f32
    ensures { result ≡ value_of bits }
{
    if is_nan_bits(bits) {
        0.0 / 0.0
    } else {
        f32::from_bits(bits)
    }
}

// The bits that are stored for a value.
pub fn stored_bits(x: f32) -> u32
    ensures { result ≡ settled x }
{
    if x != x { 0x7fc0_0000 } else { f32::to_bits(x) }
}

// x + a * b: the product is rounded, then the sum.
pub fn multiply_add(x: f32, a: f32, b: f32) -> f32
    ensures { result ≡ multiply_add x a b }
{
    x + a * b
}
