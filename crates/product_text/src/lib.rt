// The problem that a text poses to `product`. What it means is defined in specs/.
#![tactic(auto)]

ghost use Rattle.std.specs.Prelude.{◌≡◌, true, List, ◌∷◌, [], map, ◌+◌, ◌-◌, ◌*◌, ◌^◌, ◌≤◌, min, ℤ, length};
ghost use Rattle.std.specs.Option.{option_map};
ghost use Rattle.numbers.specs.Kit.{some, Option·map};
ghost use Rattle.machine.specs.Tests.{all_of, is_in};
ghost use Rattle.product_text.specs.Text.{separator, natural, number};
ghost use Rattle.product_text.specs.Problem.{posed, problem};
ghost use Rattle.product_text.specs.Parts.{returned, held, held_in, front, put_front, kept, counted, size_held, inside, sizes, sizes_of, read_into, ElementsIn};

use product_memory::Product;

// ---- reading

fn is_separator(b: u8) -> bool
    ensures { result ≡ separator b }
{
    b == b' ' || b == b'\n'
}

// One digit more, kept to 2^32.
fn more(v: u64, d: u8) -> u64
    requires { (v ≤ 0x1_0000_0000) × (48 ≤ d) × (d ≤ 57) }
    ensures { result ≡ min (10 * v + (d - 48)) 0x1_0000_0000 }
{
    (10 * v + u64::from(d - b'0')).min(0x1_0000_0000)
}

// The number whose digits these are, kept to 2^32.
fn read_natural(digits: &[u8]) -> Option<u64>
    ensures { result ≡ returned (kept (natural digits.now)) }
{
    if digits.is_empty() {
        return None;
    }
    let mut v = 0;
    for d in digits {
        if !d.is_ascii_digit() {
            return None;
        }
        v = more(v, *d);
    }
    Some(v)
}

// The number that a word is, as the code holds it.
fn read_word(word: &[u8]) -> Option<u64>
    ensures { result ≡ returned (Option·map held (number word.now)) }
{
    if let [b'-', digits @ ..] = word {
        Some(0x1_0000_0000 - read_natural(digits)?)
    } else {
        Some(0x1_0000_0000 + read_natural(word)?)
    }
}

// Writes all numbers of a text, as the code holds them, and returns how many there are; None where there are too many, or a word is no number.
fn read_all(text: &[u8], out: &mut [u64]) -> Option<usize>
    ensures counted { counted (held_in text.now) out.new result }
    ensures out_after { out.new ≡ put_front (front text.now) out.old }
{
    let mut n = 0;
    for word in text
        .split(|b| is_separator(*b))
        .filter(|word| !word.is_empty())
    {
        let held = read_word(word)?;
        if n == out.len() {
            return None;
        }
        out[n] = held;
        n += 1;
    }
    Some(n)
}

// ---- the problem

// The number from 0 up that is held as x; a large one where it is below 0.
fn size(x: u64) -> u64
    ensures { result ≡ size_held x }
{
    x.checked_sub(0x1_0000_0000).unwrap_or(0x2_0000_0000)
}

// Whether the number that is held as x is from -h to h - 1.
fn is_inside(h: u64, x: u64) -> bool
    requires { h ≤ 0x8000_0000 }
    ensures { result ≡ inside h x }
{
    (0x1_0000_0000 - h..0x1_0000_0000 + h).contains(&x)
}

fn each_inside(h: u64, xs: &[u64]) -> bool
    requires { h ≤ 0x8000_0000 }
    ensures { result ≡ all_of (inside h) xs.now }
{
    xs.iter().all(|x| is_inside(h, *x))
}

// Half as many as the numbers that sew bits hold.
fn half(sew: u64) -> u64
    requires { is_in sew (8 ∷ 16 ∷ 32 ∷ []) ≡ true }
    ensures { (result ≡ 2 ^ (sew - 1)) × (result ≤ 0x8000_0000) }
{
    match sew {
        8 => 0x80,
        16 => 0x8000,
        _ => 0x8000_0000,
    }
}

// The problem of the numbers xs.
fn check(xs: &[u64]) -> Option<Product>
    ensures { (zs : List ℤ) → map held zs ≡ xs.now → option_map sizes result ≡ returned (Option·map sizes_of (posed (some zs))) }
{
    let [sew, factor, m, k, n, elements @ ..] = xs else {
        return None;
    };
    let sew = size(*sew);
    let factor = size(*factor);
    let m = size(*m);
    let k = size(*k);
    let n = size(*n);
    if !run_plan::is_format(32, sew, factor) {
        return None;
    }
    if 16 < m {
        return None;
    }
    if 16 < k {
        return None;
    }
    if 16 < n {
        return None;
    }
    if elements.len() as u64 != m * k + k * n {
        return None;
    }
    if !each_inside(half(sew), elements) {
        return None;
    }
    Some(Product {
        sew,
        factor,
        m,
        k,
        n,
    })
}

// The problem that a text poses. Its elements, A's and then B's, stand in `out` from 5 on, as the code holds them; where it poses none,
// `out` holds the numbers that were read.
pub fn parse(text: &[u8], out: &mut [u64]) -> Option<Product>
    requires { length out.old ≡ 517 }
    ensures value { option_map sizes result ≡ returned (Option·map sizes_of (problem text.now)) }
    ensures elements_in { ElementsIn (problem text.now) out.new }
    ensures out_after { out.new ≡ read_into text.now out.old }
{
    if 8192 < text.len() {
        return None;
    }
    let n = read_all(text, out)?;
    check(&out[..n])
}
