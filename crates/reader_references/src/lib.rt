// A reference: offset and length of an object, which must lie in the heap.
#![tactic(auto)]

ghost use Rattle.std.specs.Prelude.{◌≡◌, true, ◌+◌, ◌-◌, ◌≤◌, ◌<◌, length};
ghost use Rattle.table.specs.Bytes.{pick, part};
ghost use Rattle.table.specs.Layout.{is_text, region, reference_at};
ghost use Rattle.table.specs.Rules.{ref_rule};
ghost use Rattle.reader_references.specs.References.{ref_of, ref_number, part_in, asked_rule, object_rule, positions_rule};

use bytes_positions::are_positions;
use bytes_text::is_text;
use table::Need;

// Where the heap lies in the table: to judge a reference its bytes need not be there. No sum with its end wraps.
#[derive(Clone, Copy)]
pub struct Bounds {
    pub from: usize,
    pub len: usize,
    pub ghost fits: { from + len < 8589934592 },
}

impl Bounds {
    // Where it ends in the table.
    fn end(self) -> usize
        ensures { result ≡ self.from + self.len }
    {
        self.from + self.len
    }
}

// The heap, lent as the part of the table that it is, and where it starts there. No sum with its end wraps.
#[derive(Clone, Copy)]
pub struct Heap<'a> {
    pub bytes: &'a [u8],
    pub from: usize,
    pub ghost fits: { from + length bytes.now < 8589934592 },
}

impl<'a> Heap<'a> {
    // Where it lies, without its bytes.
    fn bounds(self) -> Bounds
        ensures { (result.from ≡ self.entry.from) × (result.len ≡ length self.entry.bytes.now) }
    {
        Bounds {
            from: self.from,
            len: self.bytes.len(),
        }
    }

    // The `len` bytes of it that stand at `at` in the table.
    fn part(self, at: usize, len: usize) -> &'a [u8]
        requires { (self.from ≤ at) × (at + len ≤ self.from + length self.bytes.now) }
        ensures { result.now ≡ part self.entry.bytes.now (at - self.entry.from) len }
    {
        let start = at - self.from;
        let end = start + len;
        &self.bytes[start..end]
    }

    // The reference at `r` to an object of plain bytes in it, under a need.
    pub fn plain_fault(self, t: &[u8], r: usize, need: Need) -> u8
        requires { r + 6 ≤ length t.now }
        ensures { result ≡ ref_rule (region self.entry.from (length self.entry.bytes.now)) need (reference_at t.now r).at (reference_at t.now r).len }
    {
        plain_fault(t, r, need, self.bounds())
    }
}

// What a reference names.
#[derive(Clone, Copy)]
pub enum Ref {
    Absent,
    Wrong,
    Part { at: usize, len: usize },
}

// By its two halves: both zero, one zero, or an object that lies wholly in the heap or not. No sum wraps.
#[tactic(auto, using(table::proofs::Rules::picks), unfolding(crate::specs::References::ref_of))]
pub fn ref_of(off: usize, len: usize, heap: Bounds) -> Ref
    requires { (off < 4294967296) × (len < 65536) }
    ensures { result ≡ ref_of (region heap.from heap.len) off len }
{
    if off == 0 && len == 0 {
        Ref::Absent
    } else if off == 0 || len == 0 || off < heap.from || heap.end() < off + len {
        Ref::Wrong
    } else {
        Ref::Part { at: off, len }
    }
}

// The reference that stands at `r`.
pub fn ref_at(t: &[u8], r: usize, heap: Bounds) -> Ref
    requires { r + 6 ≤ length t.now }
    ensures { result ≡ ref_of (region heap.from heap.len) (reference_at t.now r).at (reference_at t.now r).len }
{
    let x = bytes_wire::reference_at(t, r);
    ref_of(x.at, x.len, heap)
}

// The bytes that the reference at `r` names, as the part of the heap that they are. No object is empty: an empty part says that it is absent or wrong.
pub fn part_at<'a>(t: &[u8], r: usize, heap: Heap<'a>) -> &'a [u8]
    requires { r + 6 ≤ length t.now }
    ensures { result.now ≡ part_in heap.entry.bytes.now heap.entry.from (reference_at t.now r).at (reference_at t.now r).len }
{
    match ref_at(t, r, heap.bounds()) {
        Ref::Part { at, len } => heap.part(at, len),
        _ => &heap.bytes[..0],
    }
}

// 0 or 11.
#[tactic(auto, unfolding(crate::specs::References::ref_number))]
pub fn ref_number(need: Need, r: Ref) -> u8
    ensures { result ≡ ref_number need r }
{
    match (need, r) {
        (Need::Ignored, _) | (Need::Optional, Ref::Absent) | (_, Ref::Part { .. }) => 0,
        _ => 11,
    }
}

// The reference at `r` to an object of plain bytes, under a need, by where the heap lies.
pub fn plain_fault(t: &[u8], r: usize, need: Need, heap: Bounds) -> u8
    requires { r + 6 ≤ length t.now }
    ensures { result ≡ ref_rule (region heap.from heap.len) need (reference_at t.now r).at (reference_at t.now r).len }
{
    ref_number(need, ref_at(t, r, heap))
}

// 0 or 18 by the `len` bytes that stand at `at`: text ends in its only zero byte. The walk over blocks stands here, and not in what calls it.
#[inline(never)]
fn text_number(heap: Heap<'_>, at: usize, len: usize) -> u8
    requires { (heap.from ≤ at) × (at + len ≤ heap.from + length heap.bytes.now) }
    ensures { result ≡ pick (is_text (part heap.entry.bytes.now (at - heap.entry.from) len)) 0 18 }
{
    if is_text(heap.part(at, len)) { 0 } else { 18 }
}

// The reference at `r` to a text, under a need: 11 by the reference, then 18 by the bytes.
pub fn text_fault(t: &[u8], r: usize, need: Need, heap: Heap<'_>) -> u8
    requires { r + 6 ≤ length t.now }
    ensures { result ≡ object_rule need true heap.entry.bytes.now heap.entry.from (reference_at t.now r) }
{
    match (need, ref_at(t, r, heap.bounds())) {
        (Need::Ignored, _) => 0,
        (_, Ref::Part { at, len }) => text_number(heap, at, len),
        (_, missing) => ref_number(need, missing),
    }
}

// 0 or 20 by the `len` bytes that stand at `at`: positions, of which there are `most`.
fn positions_number(heap: Heap<'_>, at: usize, len: usize, most: usize) -> u8
    requires { (heap.from ≤ at) × (at + len ≤ heap.from + length heap.bytes.now) }
    ensures { result ≡ positions_rule most (part heap.entry.bytes.now (at - heap.entry.from) len) }
{
    if are_positions(heap.part(at, len), most) {
        0
    } else {
        20
    }
}

// The reference at `r` to a list of positions, which need not be there: 11 by the reference, then 20 by the bytes.
pub fn positions_fault(t: &[u8], r: usize, most: usize, heap: Heap<'_>) -> u8
    requires { r + 6 ≤ length t.now }
    ensures { result ≡ asked_rule Need.Optional (positions_rule most) heap.entry.bytes.now heap.entry.from (reference_at t.now r) }
{
    match ref_at(t, r, heap.bounds()) {
        Ref::Part { at, len } => positions_number(heap, at, len, most),
        missing => ref_number(Need::Optional, missing),
    }
}
