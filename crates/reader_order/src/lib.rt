// Tests 2 to 4 and 6 to 9 by what was read and counted: the first fault wins.
#![tactic(auto)]

ghost use Rattle.std.specs.Prelude.{◌≡◌};
ghost use Rattle.table.specs.Rules.{first_fail};
ghost use Rattle.reader_order.specs.Judging.{size_tests, judged};

use table::{Answer, Control, LIMIT, SHORTEST, SIGNATURE};

// Tests 2 to 4. `lent` is how many bytes the caller lends; what lies beyond Length is ignored.
#[tactic(auto, using(table::proofs::Rules::picks), unfolding(crate::specs::Judging::size_tests, table::specs::Meaning::limit))]
pub fn size_fault(signature: usize, size: usize, lent: usize) -> Answer
    ensures { result ≡ first_fail (size_tests signature size lent) }
{
    if signature != SIGNATURE {
        return table::refuse(2, 0, 0);
    }
    if size < SHORTEST || lent < size {
        return table::refuse(3, 0, 0);
    }
    if LIMIT < size {
        return table::refuse(4, 0, 0);
    }
    table::done()
}

// Tests 6 to 9 in their order, by what was read and counted: the first fault wins.
#[tactic(auto, using(table::proofs::Rules::picks), unfolding(crate::specs::Judging::judged, table::specs::FixedLayouts::host))]
pub fn judge(
    major: u8,
    control: usize,
    hostlen: usize,
    short: usize,
    misplaced: usize,
    version: u8,
    wrong: usize,
) -> Answer
    ensures { result ≡ first_fail (judged major control hostlen short misplaced version wrong) }
{
    if major != 1 {
        return table::refuse(6, 0, 0);
    }
    if control != 0 {
        return table::refuse(7, Control::ID, 0);
    }
    if hostlen < table::Host::SIZE || short != 0 || misplaced != 0 {
        return table::refuse(8, Control::ID, 0);
    }
    if version != 1 || wrong != 0 {
        return table::refuse(9, Control::ID, 0);
    }
    table::done()
}
