// A program that answers a text: it reads standard input whole, and writes the answer to standard output.
#![tactic(auto)]

ghost use Rattle.std.specs.Prelude.{◌≤◌};

use std::env::{Env, FillError};

// What a program says of itself: its name, what it writes, and what it is and does.
#[derive(Clone, Copy)]
pub struct Program<'a> {
    pub name: &'a str,
    pub output: &'a str,
    pub usage: &'a [u8],
}

// One byte more is read than a text may have, so that a longer one is refused. A text that was not read whole gets no answer.
// Where a line on standard error cannot be written either, nothing is left to do.
fn answer_input<F: FnOnce(&[u8], &mut [u8; 786432]) -> usize>(
    rt: &HostRuntime,
    program: &Program,
    answer: F,
)
    requires callable { F.IsAlwaysCallable answer }
    requires in_room { (text : _) (out : _) (count : _) (left : _) → F.post answer text out count left → count ≤ 786432 }
{
    let name = program.name;
    let mut text = [0u8; 65537];
    let Ok(count) = program_stream::read_text(&mut rt.stdin(), &mut text) else {
        let _ = eprintln!(rt; "{name}: cannot read standard input");
        return;
    };
    let mut out = [0u8; 786432];
    let written = answer(&text[..count], &mut out);
    if rt.write_all(&out[..written]).is_err() {
        let output = program.output;
        let _ = eprintln!(rt; "{name}: cannot write {output}");
    }
}

// The program takes no arguments; with any it says what it is and does, whichever they are, and reads nothing.
fn say_usage(rt: &HostRuntime, program: &Program) {
    if rt.write_all(program.usage).is_err() {
        let name = program.name;
        let _ = eprintln!(rt; "{name}: cannot write what it is");
    }
}

// Argument 0 is the program's name.
pub fn run<F: FnOnce(&[u8], &mut [u8; 786432]) -> usize>(
    rt: &HostRuntime,
    program: &Program,
    answer: F,
)
    requires callable { F.IsAlwaysCallable answer }
    requires in_room { (text : _) (out : _) (count : _) (left : _) → F.post answer text out count left → count ≤ 786432 }
{
    match rt.arg(1, &mut []) {
        Err(FillError::NotPresent) => answer_input(rt, program, answer),
        _ => say_usage(rt, program),
    }
}
