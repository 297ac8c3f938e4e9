// Where the matrices of `product` lie in its memory, and their elements written and read.
#![tactic(auto)]

ghost use Rattle.std.specs.Prelude.{◌≡◌, true, ℕ, ◌+◌, ◌*◌, ◌/◌, ◌≤◌, ◌<◌, length, get_or};
ghost use Rattle.numbers.specs.Tile.{get_le, put_le, put_row};
ghost use Rattle.unit_element.specs.Element.{Short};
ghost use Rattle.run.specs.Start.{format};
ghost use Rattle.product_memory.specs.Memory.{plan_for};

use run::{Layout, Plan};
use unit_element::Element;

// A product that `product` is asked for: of A, m by k, and B, k by n, with elements of `sew` bits; those of C have `factor` times as many.
#[derive(Clone, Copy)]
pub struct Product {
    pub sew: u64,
    pub factor: u64,
    pub m: u64,
    pub k: u64,
    pub n: u64,
    pub ghost formatted: { format 32 sew factor ≡ true },
    pub ghost small: { (m ≤ 16) × ((k ≤ 16) × (n ≤ 16)) },
}

impl Product {
    // The bytes of an element of A and B.
    pub fn width(&self) -> u64
        ensures { (result ≡ self.now.sew / 8) × Short result }
    {
        self.sew / 8
    }

    // The bytes of an element of C.
    pub fn wide(&self) -> u64
        ensures { (result ≡ self.now.factor * (self.now.sew / 8)) × Short result }
    {
        self.factor * self.width()
    }

    pub fn plan(&self) -> Plan
        ensures { result ≡ plan_for self.now.sew self.now.factor self.now.m self.now.k self.now.n }
    {
        Plan {
            kind: 0,
            sew: self.sew,
            factor: self.factor,
            m: self.m,
            k: self.k,
            n: self.n,
            a: Layout {
                address: 0,
                stride: self.k * self.width(),
            },
            b: Layout {
                address: 1024,
                stride: self.n * self.width(),
            },
            c: Layout {
                address: 2048,
                stride: self.n * self.wide(),
            },
        }
    }
}

// Stores the low bytes of a value at `at`.
fn put_element(memory: &mut [u8], at: usize, width: usize, value: u64)
    requires short { Short width }
    requires width_in_bounds { at + width ≤ length memory.old }
    ensures { memory.new ≡ put_le at width value memory.old }
{
    match width {
        1 => u8::write(memory, at, u8::low(value)),
        2 => u16::write(memory, at, u16::low(value)),
        _ => u32::write(memory, at, u32::low(value)),
    }
}

// Stores the low bytes of each value, one after another from `at` on.
pub fn put_elements(memory: &mut [u8], at: usize, width: usize, values: &[u64])
    requires short { Short width }
    requires width_in_bounds { at + length values.now * width ≤ length memory.old }
    ensures { memory.new ≡ put_row at (length values.now) width (λ i. get_or values.now i 0) memory.old }
{
    for (i, value) in values.iter().enumerate() {
        put_element(memory, at + i * width, width, *value);
    }
}

// The element at `at`.
fn read_element(memory: &[u8], at: usize, width: usize) -> u64
    requires short { Short width }
    requires width_in_bounds { at + width ≤ length memory.now }
    ensures { result ≡ get_le memory.now at width }
{
    match width {
        1 => u64::from(u8::read(memory, at)),
        2 => u64::from(u16::read(memory, at)),
        _ => u64::from(u32::read(memory, at)),
    }
}

// Fills the values with the elements one after another from `at` on.
pub fn read_elements(values: &mut [u64], memory: &[u8], at: usize, width: usize)
    requires short { Short width }
    requires width_in_bounds { at + length values.old * width ≤ length memory.now }
    ensures values_len_unchanged { length values.new ≡ length values.old }
    ensures by_index { (j : ℕ) → j < length values.old → get_or values.new j 0 ≡ get_le memory.now (at + j * width) width }
{
    for (j, value) in values.iter_mut().enumerate() {
        *value = read_element(memory, at + j * width, width);
    }
}
