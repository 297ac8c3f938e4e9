// An answer's number, row and column.
#![tactic(auto)]

ghost use Rattle.std.specs.Prelude.{◌≡◌};
ghost use Rattle.machine.specs.Answers.{bare, reply};

use machine::{Answer, Refusal, Reply};

// A number that names no row and no column.
fn bare(number: u64) -> Reply
    ensures { result ≡ bare number }
{
    Reply {
        number: number,
        row: 0,
        column: 0,
    }
}

// An answer's number, row and column.
pub fn reply_of(answer: Answer) -> Reply
    ensures { result ≡ reply answer }
{
    match answer {
        Ok(()) => bare(0),
        Err(Refusal::IllegalWord) => bare(1),
        Err(Refusal::IllegalType) => bare(2),
        Err(Refusal::BadWidth) => bare(3),
        Err(Refusal::TileTooLarge) => bare(4),
        Err(Refusal::Unwritten { row, column }) => Reply {
            number: 5,
            row: row,
            column: column,
        },
        Err(Refusal::OutsideMemory) => bare(6),
        Err(Refusal::SealedByte) => bare(7),
        Err(Refusal::BadArguments) => bare(8),
        Err(Refusal::Overlap) => bare(9),
        Err(Refusal::WrongOpcode) => bare(10),
        Err(Refusal::LeftOutWord) => bare(11),
        Err(Refusal::WrongRegister) => bare(12),
        Err(Refusal::RowsOverlap) => bare(13),
        Err(Refusal::TooManySeals) => bare(16),
    }
}
