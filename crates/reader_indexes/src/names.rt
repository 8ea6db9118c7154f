// The indexes of a record, by kind: which of its bytes are indexes, and when they count.
ghost use Rattle.std.specs.Prelude.{◌≡◌, ◌+◌, ◌≤◌, length};
ghost use Rattle.table.specs.Layout.{base_of, region};
ghost use Rattle.table.specs.FixedLayouts.{layout_of};
ghost use Rattle.laws.specs.IndexLaws.{found_by};
ghost use Rattle.laws.specs.ListWalk.{valid_in};
ghost use Rattle.reader_frame.specs.Bounds.{LaidOut};
ghost use Rattle.reader_rules.specs.Rules.{IsHeap};
ghost use Rattle.reader_indexes.specs.Indexes.{names_found, security_index, RefsPass};

use crate::{NOTHING, behind, index_fault, optional_index, secondary_names};
use reader_references::Heap;
use table::{Discovery, Found, Hfi, Security, Ssns};

fn discovery_names(t: &[u8], a: usize) -> Found
    requires { LaidOut t.now × (a + 32 ≤ length t.now) }
    ensures { (result ≡ names_found 6 t.now a) × (result.looks ≤ 2) }
{
    let interface = index_fault(t, Hfi::ID, bytes_wire::wide(t[a + 3]));
    if interface.number != 0 {
        return interface;
    }
    let security = optional_index(t, Security::ID, bytes_wire::wide(t[a + 4]));
    behind(interface.looks, security)
}

// The security index counts only under flag 2.
fn security_index(t: &[u8], a: usize) -> Found
    requires { LaidOut t.now × (a + 128 ≤ length t.now) }
    ensures { (result ≡ found_by (valid_in t.now) (security_index t.now a)) × (result.looks ≤ 1) }
{
    if layout_flags::ssns_flags(t, a) / 4 % 2 == 0 {
        return NOTHING;
    }
    index_fault(t, Security::ID, bytes_wire::wide(t[a + 45]))
}

fn ssns_names(t: &[u8], a: usize, position: usize, heap: Heap<'_>) -> Found
    requires { LaidOut t.now × (a + 128 ≤ length t.now) × IsHeap t.now heap.bytes.now heap.from × RefsPass 4 (region heap.from (length heap.bytes.now)) t.now a position }
    ensures { (result ≡ names_found 4 t.now a) × (result.looks ≤ 8589934595) }
{
    let discovery = optional_index(t, Discovery::ID, bytes_wire::wide(t[a + 8]));
    if discovery.number != 0 {
        return discovery;
    }
    let security = behind(discovery.looks, security_index(t, a));
    if security.number != 0 {
        return security;
    }
    let own = index_fault(t, Hfi::ID, bytes_wire::wide(t[a + 46]));
    let primary = behind(security.looks, own);
    if primary.number != 0 {
        return primary;
    }
    behind(primary.looks, secondary_names(t, a, position, heap))
}

// The indexes of the record at `a`, whose references have passed: 0 or 13.
pub fn names_fault(t: &[u8], kind: u8, a: usize, position: usize, heap: Heap<'_>) -> Found
    requires { LaidOut t.now × (a + base_of (layout_of kind) ≤ length t.now) × IsHeap t.now heap.bytes.now heap.from × RefsPass kind (region heap.from (length heap.bytes.now)) t.now a position }
    ensures { (result ≡ names_found kind t.now a) × (result.looks ≤ 8589934595) }
{
    match kind {
        Ssns::ID => ssns_names(t, a, position, heap),
        Discovery::ID => discovery_names(t, a),
        _ => NOTHING,
    }
}
