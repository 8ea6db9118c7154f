// The entries of an accepted table behind one another: positions of a kind, and kind after kind.
ghost use Rattle.std.specs.Prelude.{◌≡◌, ◌+◌, ◌-◌, ◌*◌, ◌≤◌, ◌<◌, length, take};
ghost use Rattle.table.specs.Bytes.{splice};
ghost use Rattle.reader.specs.Accepted.{Accepted};
ghost use Rattle.reads_whole.specs.Whole.{rows, entry_at, list_kind, first_of, many_of, left_of, entries_of, number_of, least};

use crate::entries::put_entry;
use reads_by_seat::counts::count_of;
use table::{Extended, Hfi, HfiExtended, Host, Info, Ssns};

// How many entries were written, and how many there are.
#[derive(Clone, Copy)]
pub struct Told {
    pub written: usize,
    pub total: usize,
}

// Entries of so many positions of a kind, from a position on.
fn put_run(out: &mut [u8], t: &[u8], kind: u8, position: usize, count: usize)
    requires { Accepted t.now × (184 * count ≤ length out.old) × (position + count ≤ 65536) }
    ensures { out.new ≡ splice out.old 0 (rows (entry_at t.now kind) position count) }
{
    for i in 0..count {
        let start = 184 * i;
        let end = start + 184;
        put_entry(&mut out[start..end], t, kind, position + i);
    }
}

fn list_kind(kind: u8) -> u8
    ensures { result ≡ list_kind kind }
{
    match kind {
        Info::ID => Hfi::ID,
        Extended::ID => Ssns::ID,
        HfiExtended::ID => Hfi::ID,
        _ => kind,
    }
}

pub fn first_of(kind: u8) -> usize
    ensures { (result ≡ first_of kind) × (result ≤ 1) }
{
    if kind <= Host::ID { 0 } else { 1 }
}

fn many_of(t: &[u8], kind: u8) -> usize
    requires { Accepted t.now }
    ensures { (result ≡ many_of t.now kind) × (result < 256) }
{
    if kind <= Host::ID {
        return 1;
    }
    count_of(t, list_kind(kind))
}

// How many positions of a kind there are from a position on.
pub fn left_of(t: &[u8], kind: u8, position: usize) -> usize
    requires { Accepted t.now }
    ensures { (result ≡ left_of t.now kind position) × (result ≤ 256 - position) }
{
    let end = first_of(kind) + many_of(t, kind);
    end.saturating_sub(position)
}

// Entries of so many kinds, from a kind and position on, as far as there is room.
pub fn put_kinds(
    out: &mut [u8],
    t: &[u8],
    first_kind: u8,
    first_position: usize,
    kinds: usize,
    room: usize,
) -> Told
    requires { Accepted t.now × (184 * room ≤ length out.old) × (first_kind + kinds ≤ 11) × (first_position ≤ 256) }
    ensures total_value { (result.total ≡ number_of t.now first_kind first_position kinds) × (result.written ≡ least result.total room) × (result.written ≤ result.total) × (result.total ≤ 256 * kinds) }
    ensures out_after { out.new ≡ splice out.old 0 (take (184 * result.written) (entries_of t.now first_kind first_position kinds)) }
{
    let mut kind = first_kind;
    let mut position = first_position;
    let mut written: usize = 0;
    let mut total: usize = 0;
    for _ in 0..kinds {
        let left = left_of(t, kind, position);
        let fits = left.min(room - written);
        let start = 184 * written;
        put_run(&mut out[start..], t, kind, position, fits);
        written += fits;
        total += left;
        kind += 1;
        position = first_of(kind);
    }
    Told { written, total }
}
