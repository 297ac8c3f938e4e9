// Reads the numbers of a product from standard input, and writes its answer to standard output.
#![tactic(auto)]

use std::env::{Env, FillError};

// One byte more is read than a text may have, so that a longer one is refused. A text that was not read whole gets no answer.
// Where a line on standard error cannot be written either, nothing is left to do.
fn answer_input(rt: &HostRuntime) {
    let mut text = [0u8; 8193];
    let Ok(count) = program_stream::read_text(&mut rt.stdin(), &mut text) else {
        let _ = eprintln!(rt; "product: cannot read standard input");
        return;
    };
    let mut out = [0u8; 8192];
    let written = product_answer::answer(&text[..count], &mut out);
    if rt.write_all(&out[..written]).is_err() {
        let _ = eprintln!(rt; "product: cannot write the answer");
    }
}

// The program takes no arguments; with any it says what it is and does, whichever they are, and reads nothing.
fn say_usage(rt: &HostRuntime) {
    let written = rt.write_all(
        b"product 0.8.0\nusage: product\nReads SEW, f, m, k, n, then A and B by rows, from standard input, and writes the product by rows. See product(1).\n",
    );
    if written.is_err() {
        let _ = eprintln!(rt; "product: cannot write what it is");
    }
}

// Argument 0 is the program's name.
fn main(rt: HostRuntime) {
    match rt.arg(1, &mut []) {
        Err(FillError::NotPresent) => answer_input(&rt),
        _ => say_usage(&rt),
    }
}
