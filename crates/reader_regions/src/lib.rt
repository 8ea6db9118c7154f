// The regions of a table: host, lists and heap as spans, which lie in the table and apart from each other.
#![tactic(auto)]

ghost use Rattle.std.specs.Prelude.{◌≡◌, ◌≤◌, length, All};
ghost use Rattle.reader_regions.specs.Regions.{list_span, host_span, heap_span, outsides, overlaps_of, overlaps, misplaced};
ghost use Rattle.reader_head.specs.Head.{Narrow, NarrowRegion, NarrowEntry};
ghost use Rattle.reader_spans.specs.Spans.{Ends};

use reader_head::{Entry, Head};
use reader_spans::{Span, one_outside, one_overlap};
use table::Region;

// A list takes its stated record length for each record, not the base size of its kind.
fn list_span(e: Entry) -> Span
    requires { NarrowEntry e }
    ensures { (result ≡ list_span e) × Ends result }
{
    Span {
        present: e.count,
        at: e.at,
        len: e.count * e.step,
    }
}

// The host record is always there.
fn host_span(r: Region) -> Span
    requires { NarrowRegion r }
    ensures { (result ≡ host_span r) × Ends result }
{
    Span {
        present: 1,
        at: r.at,
        len: r.len,
    }
}

fn heap_span(r: Region) -> Span
    requires { NarrowRegion r }
    ensures { (result ≡ heap_span r) × Ends result }
{
    Span {
        present: r.len,
        at: r.at,
        len: r.len,
    }
}

// How many of the regions start before lo or end behind hi.
fn all_outside(lo: usize, hi: usize, spans: &[Span]) -> usize
    requires { All Ends spans.now }
    ensures { (result ≡ outsides lo hi spans.now) × (result ≤ length spans.now) }
{
    let mut count = 0;
    for span in spans {
        count += one_outside(lo, hi, *span);
    }
    count
}

// How many of the others share a byte with one of them. A region that is none, as most lists are in a small table, is held to no other.
fn overlaps_of(one: Span, others: &[Span]) -> usize
    requires { Ends one × All Ends others.now }
    ensures { (result ≡ overlaps_of one others.now) × (result ≤ length others.now) }
{
    if one.present == 0 {
        return 0;
    }
    let mut count = 0;
    for other in others {
        count += one_overlap(one, *other);
    }
    count
}

// How many of their pairs share a byte.
fn all_overlaps(spans: &[Span]) -> usize
    requires { All Ends spans.now × (length spans.now ≤ 6) }
    ensures { (result ≡ overlaps spans.now) × (result ≤ 36) }
{
    let mut count = 0;
    for (i, span) in spans.iter().enumerate() {
        count += overlaps_of(*span, &spans[i + 1..]);
    }
    count
}

// Regions lie between the end of the control record and Length, and apart from each other.
pub fn misplaced_regions(h: Head) -> usize
    requires { Narrow h }
    ensures { result ≡ misplaced h }
{
    let spans = [
        host_span(h.host),
        list_span(h.hfi),
        list_span(h.ssns),
        list_span(h.security),
        list_span(h.discovery),
        heap_span(h.heap),
    ];
    let lo = table::Header::SIZE + h.csl;
    all_outside(lo, h.size, &spans) + all_overlaps(&spans)
}
