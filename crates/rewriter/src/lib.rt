// The rewriter: an accepted table laid anew in its one form. `t` is the table, `out` the lent output.
#![tactic(auto)]

pub mod rewriting;

pub use rewriting::rewrite;
