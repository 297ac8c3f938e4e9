// The text that `product` writes for the text that it reads.
#![tactic(auto)]

ghost use Rattle.std.specs.Prelude.{◌≡◌, List, ℕ, ◌+◌, ◌*◌, ◌^◌, ◌≤◌, ◌<◌, length, take, drop, get_or, Some};
ghost use Rattle.numbers.specs.Kit.{Option·map};
ghost use Rattle.numbers.specs.Tile.{put_row};
ghost use Rattle.unit_element.specs.Element.{Short};
ghost use Rattle.run.specs.Words.{steps};
ghost use Rattle.run.specs.Plan.{shape, product_of};
ghost use Rattle.product_memory.specs.Memory.{job_for};
ghost use Rattle.product_text.specs.Problem.{problem};
ghost use Rattle.product_text.specs.Output.{answer_text};
ghost use Rattle.text_lines.specs.Parts.{Wrote};
ghost use Rattle.product_text.specs.Parts.{returned, sizes, sizes_of, ElementsIn};

use product_memory::Product;

// Lays the a numbers from 5 on at A's place, and the b after them at B's.
fn fill(memory: &mut [u8], numbers: &[u64], width: usize, a: usize, b: usize)
    requires short { Short width }
    requires width_bound { (a * width ≤ 1024) × (b * width ≤ 1024) }
    requires memory_len { (length memory.old ≡ 3072) × (5 + a + b ≤ length numbers.now) }
    ensures { memory.new
        ≡ put_row 1024 b width (λ i. get_or numbers.now (5 + a + i) 0)
        (put_row 0 a width (λ i. get_or numbers.now (5 + i) 0) memory.old) }
{
    let middle = 5 + a;
    let end = middle + b;
    product_memory::put_elements(memory, 0, width, &numbers[5..middle]);
    product_memory::put_elements(memory, 1024, width, &numbers[middle..end]);
}

// Runs the product of the matrices that lie in memory, and reads the elements of C's place. Returns the count of steps.
fn multiply(c: &mut [u64], memory: &mut [u8], product: &Product) -> u64
    requires memory_len { (length memory.old ≡ 3072) × (length c.old ≡ 256) }
    ensures value { result ≡ steps (shape (job_for product.now.sew product.now.factor product.now.m product.now.k product.now.n memory.old)) }
    ensures by_index { (i j : ℕ) → i < product.now.m → j < product.now.n
        → get_or c.new (i * product.now.n + j) 0
        ≡ product_of (job_for product.now.sew product.now.factor product.now.m product.now.k product.now.n memory.old) i j }
{
    let mut registers = [0u8; 512];
    let mut marks = [0u8; 512];
    let none: [u64; 0] = [];
    let seals = [0u8; 200];
    let machine = unit_start::start(64, 256, 32, 0, &none, &registers, &mut marks).unwrap();
    let plan = product.plan();
    let finished = run_whole::whole(
        plan,
        machine,
        &seals,
        &mut registers,
        &mut marks,
        memory,
    ).unwrap();
    let width = product.wide() as usize;
    product_memory::read_elements(c, memory, 2048, width);
    finished.count
}

// The modulus of w bytes.
fn modulus(w: u64) -> u64
    requires { Short w }
    ensures { result ≡ 256 ^ w }
{
    match w {
        1 => 256,
        2 => 65536,
        _ => 0x1_0000_0000,
    }
}

// Solves the product whose elements stand in `numbers`, and writes the answer. Returns where that ends.
fn solve(out: &mut [u8], numbers: &[u64], product: &Product) -> usize
    requires numbers_len { (length numbers.now ≡ 517) × (8192 ≤ length out.old) }
    ensures { (t : List ℕ) → Some (sizes product.now) ≡ returned (Option·map sizes_of (problem t)) → ElementsIn (problem t) numbers.now
        → Wrote out.old 0 out.new result (answer_text t) }
{
    let mut memory = [0u8; 3072];
    let mut c = [0u64; 256];
    let width = product.width() as usize;
    let a = (product.m * product.k) as usize;
    let b = (product.k * product.n) as usize;
    fill(&mut memory, numbers, width, a, b);
    let count = multiply(&mut c, &mut memory, product);
    let q = modulus(product.wide());
    text_lines::put_accepted(out, count, q, &c, product.m as usize, product.n as usize)
}

// Writes the answer to a text, and returns its length.
pub fn answer(text: &[u8], out: &mut [u8; 8192]) -> usize
    ensures upper_bound { (result ≤ 8192) × (length out.new ≡ 8192) }
    ensures out_after { take result out.new ≡ answer_text text.now }
    ensures out_unchanged { drop result out.new ≡ drop result out.old }
{
    let mut numbers = [0u64; 517];
    match product_text::parse(text, &mut numbers) {
        Some(product) => solve(out, &numbers, &product),
        None => text_lines::put_refused(out),
    }
}
