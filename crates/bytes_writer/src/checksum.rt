// The checksum that makes a table whole.
ghost use Rattle.std.specs.Prelude.{◌≡◌, [], ◌∷◌, ◌≤◌, length, take};
ghost use Rattle.table.specs.Bytes.{splice, checksum};

use crate::stores::{low, put_u8};

// The checksum of the first `size` bytes, stored among them.
pub fn seal(out: &mut [u8], size: usize)
    requires { (160 ≤ size) × (size ≤ length out.old) }
    ensures { out.new ≡ splice out.old 9 (checksum (take size out.old) ∷ []) }
{
    let sum = bytes_wire::sum8(&out[0..size]);
    put_u8(out, 9, low(256 - bytes_wire::wide(sum)));
}
