// The checksum of the form. Where the driver signature is most of it, its bytes are not gone over again: the reader has its sum.
#![tactic(auto)]

ghost use Rattle.std.specs.Prelude.{◌≡◌, ◌+◌, ◌%◌, ◌<◌, ◌≤◌, [], ◌∷◌, length, take};
ghost use Rattle.table.specs.Bytes.{part, splice, total, checksum};
ghost use Rattle.reader.specs.Accepted.{Accepted};
ghost use Rattle.reads_by_seat.specs.Driver.{driver_of};

use bytes_writer::stores::put_u8;
use reads_by_seat::sums::{driver_sum, sum_but, sum_of};

// The header's byte that makes the sum of all bytes 0.
const CHECKSUM: usize = 9;

// The sum of `form`, which has the driver signature of `t` as its `signature` bytes from `heap` on.
fn form_sum(form: &[u8], t: &[u8], heap: usize, signature: usize) -> u8
    requires { Accepted t.now × (heap + signature ≤ length form.now) × (part form.now heap signature ≡ driver_of t.now) }
    ensures { result ≡ total form.now % 256 }
{
    if signature <= form.len() - signature {
        return sum_of(form);
    }
    let whole = sum_but(form, heap, signature);
    let rest = driver_sum(t);
    std::num::wrapping_add_u8(whole, rest)
}

// The checksum of the first `size` bytes, stored among them; `signature` of them from `heap` on are the driver signature of `t`.
pub fn seal(out: &mut [u8], size: usize, t: &[u8], heap: usize, signature: usize)
    requires lt_size { (9 < size) × (size ≤ length out.old) × Accepted t.now }
    requires signature_bound { (heap + signature ≤ size) × (part (take size out.old) heap signature ≡ driver_of t.now) }
    ensures { out.new ≡ splice out.old 9 (checksum (take size out.old) ∷ []) }
{
    let sum = form_sum(&out[0..size], t, heap, signature);
    put_u8(out, CHECKSUM, std::num::wrapping_sub_u8(0, sum));
}
