// The header minor of the one form: 1 if some HFI's info has version 2.
ghost use Rattle.std.specs.Prelude.{◌≡◌};
ghost use Rattle.table.specs.FixedLayouts.{layout_of};
ghost use Rattle.table.specs.Objects.{newer_entry};
ghost use Rattle.table.specs.Meaning.{meaning, minor_of};
ghost use Rattle.reader.specs.Accepted.{Accepted};
ghost use Rattle.reads_seats.specs.Told.{told_entry};

use reads_by_seat::counts::count_of;
use reads_by_seat::versions::info_version;
use reads_seats::seats::seat_of;
use table::{Hfi, Info};

// Whether the HFI at a position asks for minor 1; an unused one has no info.
fn is_newer(t: &[u8], position: usize) -> bool
    requires { Accepted t.now }
    ensures { result ≡ newer_entry (told_entry (layout_of 3) t.now 3 position) }
{
    match seat_of(t, Info::ID, position) {
        None => false,
        Some(seat) => info_version(t, seat.at) == 2,
    }
}

pub fn form_minor(t: &[u8]) -> u8
    requires { Accepted t.now }
    ensures { result ≡ minor_of (meaning t.now) }
{
    let count = count_of(t, Hfi::ID);
    for position in 1..=count {
        if is_newer(t, position) {
            return 1;
        }
    }
    0
}
