// Each site's offset as it will be, stored into the table in which the sites are found. A step of the walk is taken before its site is stored to; the map
// tells how many heap bytes stay below a place.
#![tactic(auto)]

ghost use Rattle.std.specs.Prelude.{◌≡◌, not, ◌+◌, ◌-◌, ◌*◌, ◌≤◌, ◌<◌, length, T, eqb};
ghost use Rattle.table.specs.Bytes.{le, pick, splice};
ghost use Rattle.table.specs.Numbers.{heap_in};
ghost use Rattle.table.specs.Closing.{map_of, marks, overlapped, stored};
ghost use Rattle.reader.specs.Accepted.{Accepted};
ghost use Rattle.bytes_bits.specs.Bits.{bits_below};

use bytes_writer::stores::put_u32;
use closer_sites::{END, Named, first, step};

// The offset of what a step found, if anything, in the heap that starts at `start`.
fn store_found(t: &mut [u8], found: Named, start: usize, map: &[u8])
    requires { (0 < found.len) → (start ≤ found.off) × (found.off - start ≤ 8 * length map.now) × (found.off < 4294967296) × (found.at + 4 ≤ length t.old) }
    ensures { t.new ≡ pick (eqb found.len 0) t.old (splice t.old found.at (le 4 (start + bits_below map.now (found.off - start)))) }
{
    if found.len == 0 {
        return;
    }
    let kept = bytes_bits::ones_below(map, found.off - start);
    put_u32(t, found.at, start + kept);
}

// Of all sites of an accepted table of which no heap record shares a byte with another site, by the map of its marks.
pub fn store_sites(t: &mut [u8], map: &[u8])
    requires { Accepted t.old × T (not (overlapped t.old)) × ((heap_in t.old).len ≤ 8 * length map.now) × (map.now ≡ map_of (marks t.old) 0 (length map.now)) }
    ensures { t.new ≡ stored t.old }
{
    let start = bytes_wire::u32_at(t, 36);
    let mut w = first();
    // From state to state: no index is counted.
    while w.list != END {
        let s = step(t, w);
        w = s.walk;
        store_found(t, s.named, start, map);
    }
}
