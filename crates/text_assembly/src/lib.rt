// What is wrong with a word or a line of text. The line of a word, and what each line is read as, is defined in specs/.
#![tactic(auto)]

use machine::Wrong;

// specs/Answers.antt gives the number and the column of each.
#[derive(Clone, Copy)]
pub enum TextError {
    NoLine { wrong: Wrong },
    BadArguments,
    NoRoom,
    BadLine { column: u64 },
}
