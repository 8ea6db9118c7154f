// A record's own fields: ID, type, index and two-bit fields. Reserved bits are taken off as the bytes are read.
ghost use Rattle.std.specs.Prelude.{◌≡◌, ◌+◌, ◌≤◌, length};
ghost use Rattle.table.specs.Bytes.{pick};
ghost use Rattle.table.specs.Layout.{base_of};
ghost use Rattle.table.specs.FixedLayouts.{layout_of};
ghost use Rattle.reader_rules.specs.Records.{is_named, named_rule, right_rule};

use layout_kinds::TCP;
use table::{Hfi, Host, Security, Ssns};

// ID, type and index, by what was read. For a kind without type or index the right one is handed over.
#[tactic(auto, using(table::proofs::Rules::picks), unfolding(crate::specs::Records::is_named))]
fn named(kind: u8, id: u8, transport: u8, index: usize, position: usize) -> u8
    ensures { result ≡ pick (is_named kind id transport index position) 0 10 }
{
    if id == kind && transport == TCP && index == position {
        0
    } else {
        10
    }
}

// That of the record at `a`. A host has no index and stands at position 0.
fn named_fault(t: &[u8], kind: u8, a: usize, position: usize) -> u8
    requires { (2 ≤ kind) × (kind ≤ 6) × (a + base_of (layout_of kind) ≤ length t.now) }
    ensures { result ≡ named_rule kind t.now a position }
{
    let (transport, index) = match kind {
        Host::ID => (TCP, 0),
        Hfi::ID => (t[a + 3], usize::from(t[a + 1])),
        Ssns::ID => (t[a + 5], bytes_wire::u16_at(t, a + 1)),
        Security::ID => (TCP, usize::from(t[a + 1])),
        _ => (TCP, usize::from(t[a + 2])),
    };
    named(kind, t[a], transport, index, position)
}

// The rule of the fields of the record at `a`, host or one of a list: 0 or 10.
pub fn right_fault(t: &[u8], kind: u8, a: usize, position: usize) -> u8
    requires { (2 ≤ kind) × (kind ≤ 6) × (a + base_of (layout_of kind) ≤ length t.now) }
    ensures { result ≡ right_rule kind t.now a position }
{
    let fault = named_fault(t, kind, a, position);
    if fault != 0 {
        return fault;
    }
    if layout_flags::pairs_right(t, kind, a) {
        0
    } else {
        10
    }
}
