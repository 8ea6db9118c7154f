// Sums of bytes. Where the driver signature is longer than all else in the table, it is not gone over: the table's own bytes add up to 0, so the
// signature's sum is known by that of the others.
ghost use Rattle.std.specs.Prelude.{◌≡◌, ◌+◌, ◌%◌, ◌≤◌, length};
ghost use Rattle.table.specs.Bytes.{part, total};
ghost use Rattle.reader.specs.Accepted.{Accepted};
ghost use Rattle.reads_by_seat.specs.Driver.{driver_of};

use crate::objects::object_part;
use table::Header;

// The sum of all bytes.
pub fn sum_of(bytes: &[u8]) -> u8
    ensures { result ≡ total bytes.now % 256 }
{
    bytes_wire::sum8(bytes)
}

// The sum of all bytes but `len` of them from `at` on.
pub fn sum_but(bytes: &[u8], at: usize, len: usize) -> u8
    requires { at + len ≤ length bytes.now }
    ensures { (result + total (part bytes.now at len)) % 256 ≡ total bytes.now % 256 }
{
    let end = at + len;
    let size = bytes.len();
    let before = bytes_wire::sum8(&bytes[0..at]);
    let behind = bytes_wire::sum8(&bytes[end..size]);
    std::num::wrapping_add_u8(before, behind)
}

// The sum of the driver signature.
pub fn driver_sum(t: &[u8]) -> u8
    requires { Accepted t.now }
    ensures { result ≡ total (driver_of t.now) % 256 }
{
    let driver = object_part(t, Header::ID, 0, 44);
    let len = driver.len();
    let size = bytes_wire::u32_at(t, 4);
    let at = bytes_wire::reference_at(t, 44).at;
    // Never so in an accepted table: its objects lie within its own length. What inner calls know of them is that they lie in the caller's bytes.
    if at + len > size {
        return bytes_wire::sum8(driver);
    }
    if len <= size - len {
        return bytes_wire::sum8(driver);
    }
    let rest = sum_but(&t[0..size], at, len);
    std::num::wrapping_sub_u8(0, rest)
}
