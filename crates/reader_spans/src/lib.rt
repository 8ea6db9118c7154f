// Spans of a table: whether one lies outside given bounds, and whether two share a byte.
#![tactic(auto)]

ghost use Rattle.std.specs.Prelude.{◌≡◌, ◌≤◌};
ghost use Rattle.reader_spans.specs.Spans.{outside, overlap, Ends};

// A region that is none where `present` is 0: an empty list and a heap of length 0 have no place. It is no Option of a Region, since the
// definitions `outside` and `overlap` of specs/ are over these three numbers.
#[derive(Clone, Copy)]
pub struct Span {
    pub present: usize,
    pub at: usize,
    pub len: usize,
}

// The end is summed in a usize: at 32 bits it would wrap, and a region far outside would seem to end inside.
#[tactic(auto, using(table::proofs::Rules::picks), unfolding(crate::specs::Spans::outside))]
pub fn one_outside(lo: usize, hi: usize, s: Span) -> usize
    requires { Ends s }
    ensures { (result ≡ outside lo hi s) × (result ≤ 1) }
{
    usize::from(s.present != 0 && (s.at < lo || hi < s.at + s.len))
}

#[tactic(auto, using(table::proofs::Rules::picks), unfolding(crate::specs::Spans::overlap))]
pub fn one_overlap(a: Span, b: Span) -> usize
    requires { Ends a × Ends b }
    ensures { (result ≡ overlap a b) × (result ≤ 1) }
{
    let apart = a.at + a.len <= b.at || b.at + b.len <= a.at;
    usize::from(a.present != 0 && b.present != 0 && !apart)
}
