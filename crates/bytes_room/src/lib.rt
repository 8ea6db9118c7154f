// Whether a form fits: 17 before 14.
#![tactic(auto)]

ghost use Rattle.std.specs.Prelude.{◌≡◌, ◌∷◌, [], leb};
ghost use Rattle.table.specs.Rules.{test, first_fail};
ghost use Rattle.table.specs.Meaning.{limit};

use table::Answer;

// `n` bytes are to be written, of which there are `room`.
#[tactic(auto, using(table::proofs::Rules::picks), unfolding(table::specs::Meaning::limit))]
pub fn room_fault(n: usize, room: usize) -> Answer
    ensures { result ≡ first_fail (test (leb n limit) 17 0 0 ∷ test (leb n room) 14 0 0 ∷ []) }
{
    if n > table::LIMIT {
        return table::refuse(17, 0, 0);
    }
    if n > room {
        return table::refuse(14, 0, 0);
    }
    table::done()
}
