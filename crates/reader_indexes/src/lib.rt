// Indexes: each names a position of a list, whose record must be valid. Only the valid bit is looked at here; the record's own turn finds its other faults.
#![tactic(auto)]

pub mod names; // the indexes of a record, by kind

ghost use Rattle.std.specs.Prelude.{◌≡◌, ◌+◌, ◌*◌, ◌≤◌, ◌<◌, length, get_or, eqb, [], ◌∷◌};
ghost use Rattle.table.specs.Bytes.{num};
ghost use Rattle.table.specs.Layout.{each, index, named_at, region, unless};
ghost use Rattle.laws.specs.IndexLaws.{after, found_by};
ghost use Rattle.laws.specs.ListWalk.{valid_in, flagged};
ghost use Rattle.reader_frame.specs.Bounds.{ListIn, LaidOut};
ghost use Rattle.reader_rules.specs.Rules.{IsHeap};
ghost use Rattle.reader_indexes.specs.Indexes.{RefsPass};

use reader_references::Heap;
use table::{Control, Discovery, Found, Hfi, Security, Ssns};

// Position n of a list is one of it, and its valid bit is set.
#[tactic(auto, using(table::proofs::Rules::picks, crate::proofs::Laws::stride), unfolding(laws::specs::ListWalk::flagged))]
fn listed(t: &[u8], at: usize, step: usize, count: usize, flag: usize, n: usize) -> bool
    requires { (0 < count → at + count * step ≤ length t.now) × (0 < count → flag < step) }
    ensures { result ≡ flagged t.now at step count flag n }
{
    n != 0 && n <= count && t[at + (n - 1) * step + flag] % 2 == 1
}

// Position n of the list whose entry in the control record stands at c.
fn valid_in(t: &[u8], c: usize, flag: usize, n: usize) -> bool
    requires { (c + 8 ≤ length t.now) × ListIn t.now c (flag + 1) }
    ensures { result ≡ flagged t.now (num t.now c 4) (num t.now (c + 4) 2) (get_or t.now (c + 7) 0) flag n }
{
    listed(
        t,
        bytes_wire::u32_at(t, c),
        bytes_wire::u16_at(t, c + 4),
        bytes_wire::wide(t[c + 7]),
        flag,
        n,
    )
}

// Position n of a kind.
pub fn valid_at(t: &[u8], kind: u8, n: usize) -> bool
    requires { LaidOut t.now }
    ensures { result ≡ valid_in t.now kind n }
{
    let entry = match kind {
        Hfi::ID => Control::HFI_LIST,
        Ssns::ID => Control::SSNS_LIST,
        Security::ID => Control::SECURITY_LIST,
        Discovery::ID => Control::DISCOVERY_LIST,
        _ => return false,
    };
    valid_in(t, entry, layout_kinds::flags_at(kind), n)
}

// What is found behind `looks` others. Where contracts of the reader bound looks, they do it coarsely, by the heap's length, so that no sum of looks wraps; what
// is promised of the whole check is `looks-bound` in the crate laws.
pub fn behind(looks: usize, rest: Found) -> Found
    requires { (looks ≤ 8589934600) × (rest.looks ≤ 8589934600) }
    ensures { result ≡ after looks rest }
{
    Found {
        looks: looks + rest.looks,
        ..rest
    }
}

// What is found where no index is to be looked at.
pub const NOTHING: Found = Found {
    number: 0,
    looks: 0,
};

// An index takes a look at the record that it names, whether it is valid or not.
pub fn index_fault(t: &[u8], kind: u8, n: usize) -> Found
    requires { LaidOut t.now }
    ensures { (result ≡ found_by (valid_in t.now) (index kind n ∷ [])) × (result.looks ≤ 1) }
{
    Found {
        number: if valid_at(t, kind, n) { 0 } else { 13 },
        looks: 1,
    }
}

// An index that may be 0, which names nothing and takes no look.
pub fn optional_index(t: &[u8], kind: u8, n: usize) -> Found
    requires { LaidOut t.now }
    ensures { (result ≡ found_by (valid_in t.now) (unless (eqb n 0) (index kind n) [])) × (result.looks ≤ 1) }
{
    if n == 0 {
        return NOTHING;
    }
    index_fault(t, kind, n)
}

// Each byte of the list names a valid HFI, never 0.
fn secondaries_fault(x: &[u8], t: &[u8]) -> Found
    requires { LaidOut t.now × (length x.now ≤ 8589934592) }
    ensures { (result ≡ found_by (valid_in t.now) (each 3 x.now)) × (result.looks ≤ length x.now) }
{
    for (i, &position) in x.iter().enumerate() {
        let named = index_fault(t, Hfi::ID, usize::from(position));
        if named.number != 0 {
            return behind(i, named);
        }
    }
    Found {
        number: 0,
        looks: x.len(),
    }
}

// The secondary list is a part of the heap, whose reference has passed.
pub fn secondary_names(t: &[u8], a: usize, position: usize, heap: Heap<'_>) -> Found
    requires { LaidOut t.now × (a + 128 ≤ length t.now) × IsHeap t.now heap.bytes.now heap.from × RefsPass 4 (region heap.from (length heap.bytes.now)) t.now a position }
    ensures { (result ≡ found_by (valid_in t.now) (each 3 (named_at t.now (a + 48)))) × (result.looks ≤ 8589934592) }
{
    secondaries_fault(reader_references::part_at(t, a + 48, heap), t)
}
