// A heap closed up in place: its marked bytes slide to its start, in their order, and zeros stand behind them.
#![tactic(auto)]

ghost use Rattle.std.specs.Prelude.{◌≡◌, not, ◌&&◌, ◌*◌, ◌≤◌, ◌<◌, length, get_or, set, eqb};
ghost use Rattle.table.specs.Bytes.{padded, pick};
ghost use Rattle.table.specs.Closing.{moved_of, one, ones, sift};
ghost use Rattle.bytes_bits.specs.Bits.{marked};
ghost use Rattle.closing_laws.specs.SlideLaws.{slid_to};

use bytes_writer::stores::fill_zero;

// Byte n to place k, where its bit b is set; how many bytes that moves.
fn keep(heap: &mut [u8], n: usize, k: usize, b: u8) -> usize
    requires { (n < length heap.old) × (k ≤ n) }
    ensures { (heap.new ≡ pick (eqb b 1) (set heap.old k (get_or heap.old n 0)) heap.old) × (result ≡ one (eqb b 1 && not (eqb k n))) × (result ≤ 1) }
{
    if b != 1 {
        return 0;
    }
    heap[k] = heap[n];
    if k == n {
        return 0;
    }
    1
}

// The marked bytes slide down; how many of them change their place.
fn slide(heap: &mut [u8], map: &[u8]) -> usize
    requires { length heap.old ≤ 8 * length map.now }
    ensures heap_after { heap.new ≡ slid_to (marked map.now) (length heap.old) heap.old }
    ensures value { (result ≡ moved_of (marked map.now) (length heap.old)) × (result ≤ length heap.old) × (length heap.new ≡ length heap.old) }
{
    let mut moved: usize = 0;
    let mut kept: usize = 0;
    // By an index, since the heap is written while it is walked.
    for n in 0..heap.len() {
        let b = bytes_bits::bit(map, n);
        moved += keep(heap, n, kept, b);
        kept += usize::from(b);
    }
    moved
}

// The same with zeros behind the marked bytes, of which there are `kept`.
pub fn close_up(heap: &mut [u8], map: &[u8], kept: usize) -> usize
    requires { (length heap.old ≤ 8 * length map.now) × (kept ≡ ones (marked map.now) (length heap.old)) }
    ensures heap_after { heap.new ≡ padded (length heap.old) (sift (marked map.now) 0 heap.old) }
    ensures value { (result ≡ moved_of (marked map.now) (length heap.old)) × (result ≤ length heap.old) }
{
    let moved = slide(heap, map);
    let freed = heap.len() - kept;
    fill_zero(heap, kept, freed);
    moved
}
