// What an instruction that is no setting is refused for before memory is looked at, in a state that is not at fault.
#![tactic(auto)]

pub mod sizes; // answers 2 to 4
pub mod written; // answers 2 to 5 of arithmetic
