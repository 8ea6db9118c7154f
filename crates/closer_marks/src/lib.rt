// What is learnt of the sites of an accepted table before anything is written to it: whether a heap record shares a byte with another site, and which bytes
// of the heap they name.
#![tactic(auto)]

pub mod marks; // the bytes that they name
pub mod overlaps; // shared bytes
