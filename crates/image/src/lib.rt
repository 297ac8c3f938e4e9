// Why the sizing, writing or reading of a machine's image is refused. What an image is, and what writing and reading leave, is defined in specs/.
#![tactic(auto)]

// specs/Answers.antt gives the number and the place of each case.
#[derive(Clone, Copy)]
pub enum ImageError {
    BadArguments,
    NoRoom,
    Damaged { place: u64 },
}
