// Closing up a table's heap in place: the reader's answer, then 14, then 19; only where all pass is a byte of table or map written.
#![tactic(auto)]

ghost use Rattle.std.specs.Prelude.{◌≡◌, not, ◌∷◌, [], ◌*◌, ◌≤◌, ◌<◌, length, T, leb};
ghost use Rattle.table.specs.Bytes.{le, splice};
ghost use Rattle.table.specs.Rules.{first_fail, test};
ghost use Rattle.table.specs.Numbers.{heap_in};
ghost use Rattle.table.specs.Closing.{close_answer, close_bytes, close_map, close_moved, closed, map_of, marks, mended, overlapped};
ghost use Rattle.table.specs.Closing as definition;
ghost use Rattle.reader.specs.Accepted.{Accepted};

use bytes_writer::checksum::seal;
use bytes_writer::stores::{fill_zero, put_u8, put_u32};
use closer_marks::marks::mark_sites;
use closer_marks::overlaps::is_overlapped;
use closer_slide::close_up;
use closer_stores::store_sites;
use table::Answer;

// What closing up answers: how many bytes of the heap changed their place, 0 where it is refused.
#[derive(Clone, Copy)]
pub struct Compacted {
    pub answer: Answer,
    pub moved: usize,
}

// Of an accepted table: 14 where the map has fewer bits than the heap has bytes, then 19.
fn closing_fault(t: &[u8], room: usize) -> Answer
    requires { Accepted t.now }
    ensures { result ≡ first_fail (test (leb (heap_in t.now).len (8 * room)) 14 0 0 ∷ test (not (overlapped t.now)) 19 0 0 ∷ []) }
{
    let size = bytes_wire::u32_at(t, 40);
    if room < (size + 7) / 8 {
        return table::refuse(14, 0, 0);
    }
    if is_overlapped(t) {
        return table::refuse(19, 0, 0);
    }
    table::done()
}

// Which heap bytes of an accepted table its sites name, whatever the map held.
fn mark_map(t: &[u8], map: &mut [u8])
    requires { Accepted t.now × ((heap_in t.now).len ≤ 8 * length map.old) }
    ensures { map.new ≡ map_of (marks t.now) 0 (length map.old) }
{
    let bytes = map.len();
    fill_zero(map, 0, bytes);
    mark_sites(t, map);
}

// The heap's length, and then the checksum of the table's `size` bytes.
fn finish(t: &mut [u8], kept: usize, size: usize)
    requires { (160 ≤ size) × (size ≤ length t.old) }
    ensures { t.new ≡ mended size (splice t.old 40 (le 4 kept)) }
{
    put_u32(t, 40, kept);
    put_u8(t, 9, 0);
    seal(t, size);
}

// The table by the map of its marks: its offsets, then its heap, then what the header says of it. Where the heap stands is known by the table as it was.
fn close_table(t: &mut [u8], map: &[u8]) -> usize
    requires { Accepted t.old × T (not (overlapped t.old)) × ((heap_in t.old).len ≤ 8 * length map.now) × (map.now ≡ map_of (marks t.old) 0 (length map.now)) }
    ensures { (result ≡ definition.moved t.old) × (result < 4294967296) × (t.new ≡ closed t.old) }
{
    let length = bytes_wire::u32_at(t, 4);
    let start = bytes_wire::u32_at(t, 36);
    let size = bytes_wire::u32_at(t, 40);
    let end = start + size;
    store_sites(t, map);
    let kept = bytes_bits::ones_below(map, size);
    let moved = close_up(&mut t[start..end], map, kept);
    finish(t, kept, length);
    moved
}

fn refused(answer: Answer) -> Compacted
    ensures { (result.answer ≡ answer) × (result.moved ≡ 0) }
{
    Compacted { answer, moved: 0 }
}

// Any bytes may be handed in. Of the map a bit is asked for each byte of the heap; what it held means nothing.
pub fn compact(t: &mut [u8], map: &mut [u8]) -> Compacted
    ensures answer_value { (result.answer ≡ close_answer t.old (length map.old)) × (result.moved ≡ close_moved t.old (length map.old)) × (result.moved < 4294967296) }
    ensures t_after { (t.new ≡ close_bytes t.old (length map.old)) × (map.new ≡ close_map t.old map.old) }
{
    let judged = reader::check(t);
    if judged.number != 0 {
        return refused(judged);
    }
    let fault = closing_fault(t, map.len());
    if fault.number != 0 {
        return refused(fault);
    }
    mark_map(t, map);
    Compacted {
        answer: fault,
        moved: close_table(t, map),
    }
}
