// What every call of the builder that is told a record does: its tests in order, its objects into the buffer, and the state that it hands back.
#![tactic(auto)]

pub mod judging; // 15, 10, 12, 11
pub mod laying; // objects, and the next state
