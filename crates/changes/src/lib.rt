// What two tables say differently: the definitions stand in specs/.
#![tactic(auto)]

pub mod lines; // the bytes of one line, and where two rows of bytes first differ
