// The reader: whether a table is good, and if not, the first fault. Tests 1 to 9, then the driver signature, the host, and the records by position.
#![tactic(auto)]

ghost use Rattle.std.specs.Prelude.{◌≡◌, ◌+◌, ◌≤◌, ◌<◌, length};
ghost use Rattle.table.specs.Bytes.{num, part};
ghost use Rattle.table.specs.Layout.{region};
ghost use Rattle.table.specs.Meaning.{meaning};
ghost use Rattle.table.specs.Numbers.{records, check};
ghost use Rattle.table.specs.Looks.{looks, looks_records};
ghost use Rattle.reader_frame.specs.Bounds.{LaidOut};
ghost use Rattle.reader_rules.specs.Rules.{IsHeap};
ghost use Rattle.reader.specs.Stages.{host_fault, host_looks, lists_fault, lists_looks, numbered};

use reader_lists::{list_fault, refs_fault, used_fault};
use reader_references::Heap;
use table::{Answer, Control, Discovery, Header, Hfi, Host, Looked, Region, Security, Ssns};

// The heap, lent to the readers of records as the part of the table that it is; an empty one has no place.
fn heap_of(t: &[u8], place: Region) -> Heap<'_>
    requires { (0 < place.len → place.at + place.len ≤ length t.now) × (place.at < 4294967296) × (place.len < 4294967296) }
    ensures { (result.bytes.now ≡ part t.now place.at place.len) × (result.from ≡ place.at) }
{
    let from = place.at;
    if place.len == 0 {
        return Heap {
            bytes: &t[..0],
            from,
        };
    }
    let end = from + place.len;
    Heap {
        bytes: &t[from..end],
        from,
    }
}

fn answer_of(number: u8, kind: u8) -> Answer
    ensures { result ≡ numbered number kind }
{
    if number == 0 {
        table::done()
    } else {
        table::refuse(number, kind, 0)
    }
}

// What is found behind `looks` others. As in `reader_indexes` the bounds are there so that the sum does not wrap.
fn behind(looks: usize, rest: Looked) -> Looked
    requires { (looks ≤ 8796093022208) × (rest.looks ≤ 8796093022208) }
    ensures { (result.answer ≡ rest.answer) × (result.looks ≡ looks + rest.looks) }
{
    Looked {
        looks: looks + rest.looks,
        ..rest
    }
}

fn host_fault(t: &[u8], heap: Heap<'_>) -> Looked
    requires { LaidOut t.now × IsHeap t.now heap.bytes.now heap.from }
    ensures { (result.answer ≡ host_fault (region heap.entry.from (length heap.entry.bytes.now)) t.now) × (result.looks ≡ host_looks (region heap.entry.from (length heap.entry.bytes.now)) t.now) × (result.looks ≤ 8589934596) }
{
    let r = bytes_wire::reference_at(t, Control::HOST);
    let a = r.at;
    let flag = layout_kinds::flags_at(Host::ID);
    if t[a + flag] % 2 != 1 {
        return Looked {
            answer: table::refuse(10, Host::ID, 0),
            looks: 1,
        };
    }
    let used = used_fault(t, Host::ID, a, 0, heap);
    Looked {
        answer: answer_of(used.number, Host::ID),
        looks: used.looks,
    }
}

fn lists_fault(t: &[u8], heap: Heap<'_>) -> Looked
    requires { LaidOut t.now × IsHeap t.now heap.bytes.now heap.from }
    ensures { (result.answer ≡ lists_fault (region heap.entry.from (length heap.entry.bytes.now)) t.now) × (result.looks ≡ lists_looks (region heap.entry.from (length heap.entry.bytes.now)) t.now) × (result.looks ≤ 8796093022208) }
{
    let hfi = list_fault(t, Hfi::ID, Control::HFI_LIST, heap);
    if hfi.answer.number != 0 {
        return hfi;
    }
    let second = list_fault(t, Ssns::ID, Control::SSNS_LIST, heap);
    let ssns = behind(hfi.looks, second);
    if ssns.answer.number != 0 {
        return ssns;
    }
    let third = list_fault(t, Security::ID, Control::SECURITY_LIST, heap);
    let security = behind(ssns.looks, third);
    if security.answer.number != 0 {
        return security;
    }
    let last = list_fault(t, Discovery::ID, Control::DISCOVERY_LIST, heap);
    behind(security.looks, last)
}

fn parts_fault(t: &[u8], heap: Heap<'_>) -> Looked
    requires { LaidOut t.now × IsHeap t.now heap.bytes.now heap.from × (heap.from ≡ num t.now 36 4) × (length heap.bytes.now ≡ num t.now 40 4) }
    ensures { (result.answer ≡ records t.now (meaning t.now)) × (result.looks ≡ looks_records t.now (meaning t.now)) }
{
    let answer = answer_of(refs_fault(t, Header::ID, 0, 0, heap), Header::ID);
    if answer.number != 0 {
        return Looked { answer, looks: 0 };
    }
    let host = host_fault(t, heap);
    if host.answer.number != 0 {
        return host;
    }
    behind(host.looks, lists_fault(t, heap))
}

fn records_fault(t: &[u8]) -> Looked
    requires { LaidOut t.now }
    ensures { (result.answer ≡ records t.now (meaning t.now)) × (result.looks ≡ looks_records t.now (meaning t.now)) }
{
    parts_fault(t, heap_of(t, reader_head::region_at(t, 36)))
}

// The answer to any bytes, and how many looks at records it took: none where the frame has a fault.
pub fn check_looks(t: &[u8]) -> Looked
    ensures { (result.answer ≡ check t.now) × (result.looks ≡ looks t.now) }
{
    let answer = reader_frame::frame_fault(t);
    if answer.number != 0 {
        return Looked { answer, looks: 0 };
    }
    records_fault(t)
}

// The answer alone: number, kind and position of the first fault, or 0.
pub fn check(t: &[u8]) -> Answer
    ensures { result ≡ check t.now }
{
    check_looks(t).answer
}
