// Values as they are written, read into bytes: what the tools print of a value can be read again. Each is lent the bytes that it may fill, and says
// how many it filled; nothing where the text is no such value or does not fit.
#![tactic(auto)]

pub mod numbers; // numbers in decimal and hexadecimal
pub mod strings; // characters, escaped bytes, bytes by their digits
