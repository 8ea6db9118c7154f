// How many bytes the records of an accepted table take when they are laid anew.
ghost use Rattle.std.specs.Prelude.{◌≡◌, ◌*◌, ◌≤◌};
ghost use Rattle.table.specs.Layout.{base_of};
ghost use Rattle.table.specs.FixedLayouts.{layout_of};
ghost use Rattle.table.specs.Objects.{size_entry, size_list};
ghost use Rattle.table.specs.Meaning.{meaning, heap_at, heap_len, form_length};
ghost use Rattle.reader.specs.Accepted.{Accepted};
ghost use Rattle.reads_seats.specs.Told.{told_entry, count_of};
ghost use Rattle.rewriter_sizes.specs.Parts.{list_of};

use crate::references::named_size;
use reads_by_seat::counts::count_of;
use reads_seats::seats::seat_of;
use table::{Discovery, Header, Hfi, Host, Security, Ssns};

// The heap bytes of the record of a kind and position; an unused one takes none.
pub fn entry_size(t: &[u8], kind: u8, position: usize) -> usize
    requires { Accepted t.now }
    ensures { (result ≡ size_entry (told_entry (layout_of kind) t.now kind position)) × (result ≤ 1200000) }
{
    match seat_of(t, kind, position) {
        None => 0,
        Some(seat) => if seat.used {
            named_size(t, kind, seat.at)
        } else {
            0
        },
    }
}

// The same of the list of a kind.
pub fn list_size(t: &[u8], kind: u8) -> usize
    requires { Accepted t.now }
    ensures { (result ≡ size_list (list_of t.now kind)) × (result ≤ 306000000) }
{
    let count = count_of(t, kind);
    let mut sum: usize = 0;
    for position in 1..=count {
        sum += entry_size(t, kind, position);
    }
    sum
}

// The record bytes of the list of a kind.
pub fn list_span(t: &[u8], kind: u8) -> usize
    requires { Accepted t.now }
    ensures { (result ≡ count_of t.now kind * base_of (layout_of kind)) × (result ≤ 32640) }
{
    let size = layout_kinds::base_size(kind);
    count_of(t, kind) * size
}

// Where the heap starts in the one form: the lists stand before it.
pub fn heap_start(t: &[u8]) -> usize
    requires { Accepted t.now }
    ensures { (result ≡ heap_at (meaning t.now)) × (result ≤ 130720) }
{
    table::SHORTEST
        + list_span(t, Hfi::ID)
        + list_span(t, Ssns::ID)
        + list_span(t, Security::ID)
        + list_span(t, Discovery::ID)
}

// How long it is: driver signature, host, lists.
fn heap_size(t: &[u8]) -> usize
    requires { Accepted t.now }
    ensures { (result ≡ heap_len (meaning t.now)) × (result ≤ 1226400000) }
{
    let driver = entry_size(t, Header::ID, 0);
    let owner = entry_size(t, Host::ID, 0);
    let hfi = list_size(t, Hfi::ID);
    let ssns = list_size(t, Ssns::ID);
    let security = list_size(t, Security::ID);
    let discovery = list_size(t, Discovery::ID);
    driver + owner + hfi + ssns + security + discovery
}

// The length of the one form.
pub fn form_length(t: &[u8]) -> usize
    requires { Accepted t.now }
    ensures { (result ≡ form_length (meaning t.now)) × (result ≤ 1226600000) }
{
    heap_start(t) + heap_size(t)
}
