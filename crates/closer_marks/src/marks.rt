// Which bytes of the heap the sites name, in a map of bits.
ghost use Rattle.std.specs.Prelude.{◌≡◌, ◌+◌, ◌-◌, ◌*◌, ◌≤◌, ◌<◌, length, replicate, eqb};
ghost use Rattle.table.specs.Bytes.{pick};
ghost use Rattle.table.specs.Numbers.{heap_in};
ghost use Rattle.table.specs.Closing.{map_of, marks};
ghost use Rattle.reader.specs.Accepted.{Accepted};
ghost use Rattle.bytes_bits.specs.Bits.{with_bits};

use closer_sites::{END, Named, first, step};

// The bytes of what a step found, if anything, in the heap that starts at `start`.
fn mark_found(map: &mut [u8], found: Named, start: usize)
    requires { (0 < found.len) → (start ≤ found.off) × (found.off - start + found.len ≤ 8 * length map.old) × (found.off - start + found.len ≤ 4294967295) }
    ensures { map.new ≡ pick (eqb found.len 0) map.old (with_bits map.old (found.off - start) found.len) }
{
    if found.len == 0 {
        return;
    }
    bytes_bits::mark_all(map, found.off - start, found.len);
}

// Of all sites, into a map of zeros.
pub fn mark_sites(t: &[u8], map: &mut [u8])
    requires { Accepted t.now × ((heap_in t.now).len ≤ 8 * length map.old) × (map.old ≡ replicate (length map.old) 0) }
    ensures { map.new ≡ map_of (marks t.now) 0 (length map.old) }
{
    let start = bytes_wire::u32_at(t, 36);
    let mut w = first();
    // From state to state: no index is counted.
    while w.list != END {
        let s = step(t, w);
        mark_found(map, s.named, start);
        w = s.walk;
    }
}
