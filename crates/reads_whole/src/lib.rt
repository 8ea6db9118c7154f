// Records read whole: of each its image and the places of its objects, in one entry of 184 bytes. Of one record, and of as many as there is room for.
#![tactic(auto)]

use table::Answer;

pub mod calls; // one record, or many, of any bytes
pub mod entries; // the entry of one record
pub mod lists; // the entries of an accepted table, behind one another

// The bytes of an entry: 8 that say what it is, an image of 128, six places of 8.
pub const SIZE: usize = 184;

// What a read of many gives: how many entries were written, and how many there are.
#[derive(Clone, Copy)]
pub struct Records {
    pub answer: Answer,
    pub written: usize,
    pub total: usize,
}
