// How many records each list has, and the header's bytes.
ghost use Rattle.std.specs.Prelude.{◌≡◌, ◌<◌, length};
ghost use Rattle.reader.specs.Accepted.{Accepted};
ghost use Rattle.reads_seats.specs.Told.{count_of, oem_of};

use reads_seats::lent::part_of;
use table::{Control, Discovery, Hfi, Security, Ssns};

// The count of the list of a kind, a field of the control record.
pub fn count_byte(t: &[u8], kind: u8) -> u8
    requires { Accepted t.now }
    ensures { result ≡ count_of t.now kind }
{
    match kind {
        Hfi::ID => t[Control::HFI_COUNT],
        Ssns::ID => t[Control::SSNS_COUNT],
        Security::ID => t[Control::SECURITY_COUNT],
        Discovery::ID => t[Control::DISCOVERY_COUNT],
        _ => 0,
    }
}

// The same as a number of positions.
pub fn count_of(t: &[u8], kind: u8) -> usize
    requires { Accepted t.now }
    ensures { (result ≡ count_of t.now kind) × (result < 256) }
{
    bytes_wire::wide(count_byte(t, kind))
}

// Bytes 10 to 35 of the header, all of them fields.
pub fn oem(t: &[u8]) -> &[u8]
    requires { Accepted t.now }
    ensures { (result.now ≡ oem_of t.now) × (length result.now ≡ 26) }
{
    part_of(t, 10, 26)
}
