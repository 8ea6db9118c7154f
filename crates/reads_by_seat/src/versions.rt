// The version of an info.
ghost use Rattle.std.specs.Prelude.{◌≡◌, true, slice_index};
ghost use Rattle.table.specs.FixedLayouts.{layout_of, info};
ghost use Rattle.laws.specs.Fields.{image_in};
ghost use Rattle.reader.specs.Accepted.{Accepted};
ghost use Rattle.reads_seats.specs.Seats.{Standing};

use reads_seats::lent::record_at;
use table::Info;

// Of the info at a place: a byte all of whose bits count.
pub fn info_version(t: &[u8], at: usize) -> u8
    requires { Accepted t.now × Standing t.now (layout_of 7) at }
    ensures { result ≡ slice_index (image_in info t.now at) 3 }
{
    record_at(t, Info::ID, at)[3]
}
