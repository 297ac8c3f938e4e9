// What an instruction that is no setting answers and does, in a state that is not at fault.
#![tactic(auto)]

pub mod reckoning; // multiply and element-wise words
pub mod transfers; // loads and stores
