// Elements of 1, 2, 4 and 8 bytes in a byte slice, low byte first; their sign extension; and sums and products that wrap.
#![tactic(auto)]

ghost use Rattle.std.specs.Prelude.{◌≡◌, ℕ, ◌+◌, ◌%◌, ◌^◌, ◌<◌, ◌≤◌, length, ◌+ℤ◌, ◌*ℤ◌};
ghost use Rattle.std.specs.Mem.{type_size};
ghost use Rattle.std.proofs.Common.{refl, inl, inr};
ghost use Rattle.numbers.specs.Tile.{get_le, put_le};
ghost use Rattle.numbers.specs.Reduce.{reduce, signed};
ghost use Rattle.unit_element.specs.Element.{Width};

// The columns of the block of a product that is taken at once (numbers/specs/Bounds.antt: most_columns).
pub const COLUMNS: usize = 64;

// Its terms (most_terms).
pub const TERMS: usize = 16;

// An unsigned integer that an element is read into. It stands for itself, and as a residue for a signed number.
pub trait Element: Copy {
    // The number that a value stands for.
    ghost number: { Self → ℕ };

    // The bytes of an element.
    ghost BYTES: { ℕ };

    const BYTES: usize;

    // The low bytes of a number.
    fn low(v: u64) -> Self
        ensures { number result ≡ v % 256 ^ BYTES };

    // The element that starts at `at`.
    fn read(s: &[u8], at: usize) -> Self
        requires { at + BYTES ≤ length s.now }
        ensures { number result ≡ get_le s.now at BYTES };

    // Stores v in the bytes from `at` on.
    fn write(s: &mut [u8], at: usize, v: Self)
        requires { at + BYTES ≤ length s.old }
        ensures { s.new ≡ put_le at BYTES (number v) s.old };

    // The residue at 64 bits of the signed number.
    fn sign_extended(self) -> u64
        ensures { result ≡ reduce (256 ^ 8) (signed (256 ^ BYTES) (number self)) };

    // The residue of the signed sum.
    fn wrapping_sum(self, other: Self) -> Self
        ensures { number result ≡ reduce (256 ^ BYTES) (signed (256 ^ BYTES) (number self) +ℤ signed (256 ^ BYTES) (number other)) };

    // The residue of the signed product.
    fn wrapping_product(self, other: Self) -> Self
        ensures { number result ≡ reduce (256 ^ BYTES) (signed (256 ^ BYTES) (number self) *ℤ signed (256 ^ BYTES) (number other)) };

    // Multiply-accumulate: the residue of self plus x times y, all signed.
    final fn mac(self, x: Self, y: Self) -> Self
        ensures { number result ≡ reduce (256 ^ BYTES) (signed (256 ^ BYTES) (number self) +ℤ signed (256 ^ BYTES) (number x) *ℤ signed (256 ^ BYTES) (number y)) }
    {
        self.wrapping_sum(x.wrapping_product(y))
    }

    // The residue of the signed number that x stands for: x sign-extended, or its low bytes.
    final fn from_signed<N: Element>(x: N) -> Self
        ensures { number result ≡ reduce (256 ^ BYTES) (signed (256 ^ N.BYTES) (N.number x)) }
    {
        Self::low(x.sign_extended())
    }

    // The residue of the signed element of width bytes at `at`.
    final fn read_signed(s: &[u8], at: usize, width: usize) -> Self
        requires width { (Width width) × (width ≤ BYTES) }
        requires width_in_bounds { at + width ≤ length s.now }
        ensures { number result ≡ reduce (256 ^ BYTES) (signed (256 ^ width) (get_le s.now at width)) }
    {
        // By the least of the two, the compiler drops the arms of wider elements.
        match width.min(Self::BYTES) {
            8 => Self::from_signed(u64::read(s, at)),
            4 => Self::from_signed(u32::read(s, at)),
            2 => Self::from_signed(u16::read(s, at)),
            _ => Self::from_signed(u8::read(s, at)),
        }
    }

    ghost is_width: { Width BYTES };

    // A value takes as many bytes of memory.
    ghost takes_width: { type_size Self.row ≡ BYTES };
}

impl Element for u8 {
    ghost number = { λ x. x };

    ghost BYTES = { 1 };

    ghost is_width = { inl refl };

    ghost takes_width = { refl };

    const BYTES: usize = 1;

    fn low(v: u64) -> u8 {
        (v % 0x100) as u8
    }

    fn read(s: &[u8], at: usize) -> u8 {
        s[at]
    }

    fn write(s: &mut [u8], at: usize, v: u8) {
        s[at] = v;
    }

    // Sign extension as a wrapping add, here and below.
    fn sign_extended(self) -> u64 {
        ((self as u64 + 0x80) % 0x100).wrapping_add(0xffff_ffff_ffff_ff80)
    }

    fn wrapping_sum(self, other: u8) -> u8 {
        u8::wrapping_add(self, other)
    }

    fn wrapping_product(self, other: u8) -> u8 {
        u8::wrapping_mul(self, other)
    }
}

impl Element for u16 {
    ghost number = { λ x. x };

    ghost BYTES = { 2 };

    ghost is_width = { inr (inl refl) };

    ghost takes_width = { refl };

    const BYTES: usize = 2;

    fn low(v: u64) -> u16 {
        (v % 0x1_0000) as u16
    }

    fn read(s: &[u8], at: usize) -> u16 {
        u16::from_le_bytes([s[at], s[at + 1]])
    }

    fn write(s: &mut [u8], at: usize, v: u16) {
        s[at] = (v % 0x100) as u8;
        s[at + 1] = (v / 0x100) as u8;
    }

    fn sign_extended(self) -> u64 {
        ((self as u64 + 0x8000) % 0x1_0000).wrapping_add(0xffff_ffff_ffff_8000)
    }

    fn wrapping_sum(self, other: u16) -> u16 {
        u16::wrapping_add(self, other)
    }

    fn wrapping_product(self, other: u16) -> u16 {
        u16::wrapping_mul(self, other)
    }
}

impl Element for u32 {
    ghost number = { λ x. x };

    ghost BYTES = { 4 };

    ghost is_width = { inr (inr (inl refl)) };

    ghost takes_width = { refl };

    const BYTES: usize = 4;

    fn low(v: u64) -> u32 {
        (v % 0x1_0000_0000) as u32
    }

    fn read(s: &[u8], at: usize) -> u32 {
        u32::from_le_bytes([s[at], s[at + 1], s[at + 2], s[at + 3]])
    }

    fn write(s: &mut [u8], at: usize, v: u32) {
        s[at] = (v % 0x100) as u8;
        s[at + 1] = (v / 0x100 % 0x100) as u8;
        s[at + 2] = (v / 0x1_0000 % 0x100) as u8;
        s[at + 3] = (v / 0x100_0000) as u8;
    }

    fn sign_extended(self) -> u64 {
        ((self as u64 + 0x8000_0000) % 0x1_0000_0000).wrapping_add(0xffff_ffff_8000_0000)
    }

    fn wrapping_sum(self, other: u32) -> u32 {
        u32::wrapping_add(self, other)
    }

    fn wrapping_product(self, other: u32) -> u32 {
        u32::wrapping_mul(self, other)
    }
}

impl Element for u64 {
    ghost number = { λ x. x };

    ghost BYTES = { 8 };

    ghost is_width = { inr (inr (inr refl)) };

    ghost takes_width = { refl };

    const BYTES: usize = 8;

    fn low(v: u64) -> u64 {
        v
    }

    fn read(s: &[u8], at: usize) -> u64 {
        u64::from_le_bytes([
            s[at],
            s[at + 1],
            s[at + 2],
            s[at + 3],
            s[at + 4],
            s[at + 5],
            s[at + 6],
            s[at + 7],
        ])
    }

    fn write(s: &mut [u8], at: usize, v: u64) {
        s[at] = (v % 0x100) as u8;
        s[at + 1] = (v / 0x100 % 0x100) as u8;
        s[at + 2] = (v / 0x1_0000 % 0x100) as u8;
        s[at + 3] = (v / 0x100_0000 % 0x100) as u8;
        s[at + 4] = (v / 0x1_0000_0000 % 0x100) as u8;
        s[at + 5] = (v / 0x100_0000_0000 % 0x100) as u8;
        s[at + 6] = (v / 0x1_0000_0000_0000 % 0x100) as u8;
        s[at + 7] = (v / 0x100_0000_0000_0000 % 0x100) as u8;
    }

    fn sign_extended(self) -> u64 {
        self
    }

    fn wrapping_sum(self, other: u64) -> u64 {
        u64::wrapping_add(self, other)
    }

    fn wrapping_product(self, other: u64) -> u64 {
        u64::wrapping_mul(self, other)
    }
}
