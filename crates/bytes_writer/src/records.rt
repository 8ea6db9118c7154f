// The references of a record, stored in its own part by a table of offsets.
ghost use Rattle.std.specs.Prelude.{◌≡◌, ◌+◌, ◌≤◌, ◌<◌, length};
ghost use Rattle.table.specs.Bytes.{splice, apply};
ghost use Rattle.bytes_writer.specs.Stores.{ref_num, stores_from, Room};

use crate::stores::put_ref;

// What each reference's object takes: its length, and its bytes in the heap.
#[derive(Clone, Copy)]
pub struct Sizes {
    pub len: [usize; 6],
    pub span: [u32; 6],
}

// The reference to `len` bytes at `target`, stored at `at`; to none it is 0, 0.
pub fn put_slot(part: &mut [u8], at: usize, target: usize, len: usize)
    requires { at + 6 ≤ length part.old }
    ensures { part.new ≡ splice part.old at (ref_num target len) }
{
    if len == 0 {
        put_ref(part, at, 0, 0);
        return;
    }
    put_ref(part, at, target, len);
}

// The references of a record, in order; the objects stand one behind the other from `heap` on.
pub fn put_refs(part: &mut [u8], offsets: &[usize], sizes: Sizes, heap: usize)
    requires room { Room (length offsets.now) offsets.now sizes.span (length part.old) }
    requires heap_bound { heap ≤ 131072 }
    ensures { part.new ≡ apply part.old (stores_from offsets.now sizes.len sizes.span heap 0 (length offsets.now)) }
{
    let mut next = heap;
    for (i, &offset) in offsets.iter().enumerate() {
        put_slot(part, offset, next, sizes.len[i]);
        next += sizes.span[i] as usize;
    }
}
