// The rewriter: the reader's answer, then 17, then 14; only where all pass is a byte written.
ghost use Rattle.std.specs.Prelude.{◌≡◌, ◌∷◌, [], ◌≤◌, length};
ghost use Rattle.table.specs.Bytes.{splice};
ghost use Rattle.table.specs.Meaning.{meaning, heap_at, heap_len, form_length, minor_of, laid_out};
ghost use Rattle.table.specs.Rewriting as definition;
ghost use Rattle.reader.specs.Accepted.{Accepted};
ghost use Rattle.reads_seats.specs.Told.{count_of, oem_of};
ghost use Rattle.reads_by_seat.specs.Driver.{driver_of};
ghost use Rattle.bytes_front.specs.Front.{header_for, control_for};

use bytes_front::{Counts, write_front};
use bytes_room::room_fault;
use reads_by_seat::counts::{count_byte, oem};
use rewriter_checksum::seal;
use rewriter_lists::lay_lists;
use rewriter_records::lay_entry;
use rewriter_sizes::minor::form_minor;
use rewriter_sizes::sizes::{form_length, heap_start};
use table::{Answer, Discovery, Header, Hfi, Host, Rewritten, Security, Ssns};

// Header and control record: a table of `size` bytes, a heap of `heapsize` bytes at `heap`, a driver signature of `signature` bytes first in it.
fn lay_front(out: &mut [u8], t: &[u8], size: usize, heap: usize, heapsize: usize, signature: usize)
    requires { Accepted t.now × (heap_at (meaning t.now) ≤ length out.old) }
    ensures { out.new ≡ splice (splice out.old 0 (header_for size (oem_of t.now) heap heapsize signature (minor_of (meaning t.now)))) 64 (control_for (count_of t.now 3 ∷ count_of t.now 4 ∷ count_of t.now 5 ∷ count_of t.now 6 ∷ [])) }
{
    let counts = Counts {
        hfi: count_byte(t, Hfi::ID),
        ssns: count_byte(t, Ssns::ID),
        security: count_byte(t, Security::ID),
        discovery: count_byte(t, Discovery::ID),
    };
    write_front(
        out,
        oem(t),
        counts,
        size,
        heap,
        heapsize,
        signature,
        form_minor(t),
    );
}

// The one form but for its checksum, which is 0; the length of the driver signature. The header is laid like any record, and written over once it is known how long
// the driver signature is.
fn lay_form(out: &mut [u8], t: &[u8], size: usize, heap: usize) -> usize
    requires { Accepted t.now × (size ≡ form_length (meaning t.now)) × (heap ≡ heap_at (meaning t.now)) × (size ≤ length out.old) }
    ensures { (result ≡ length (driver_of t.now)) × (out.new ≡ splice out.old 0 (laid_out (meaning t.now) size 0 (heap_len (meaning t.now)) (minor_of (meaning t.now)))) }
{
    let after_driver = lay_entry(out, 0, heap, t, Header::ID, 0);
    let signature = after_driver - heap;
    lay_front(out, t, size, heap, size - heap, signature);
    let after_host = lay_entry(out, table::FRONT, after_driver, t, Host::ID, 0);
    lay_lists(out, table::SHORTEST, after_host, t);
    signature
}

fn refused(answer: Answer) -> Rewritten
    ensures { (result.answer ≡ answer) × (result.len ≡ 0) }
{
    Rewritten { answer, len: 0 }
}

// The table's one form in the first bytes of `out`, and its length. Any bytes may be handed in.
pub fn rewrite(t: &[u8], out: &mut [u8]) -> Rewritten
    ensures { (result ≡ definition.rewrite t.now (length out.old)) × (out.new ≡ definition.rewrite_bytes t.now out.old) }
{
    let judged = reader::check(t);
    if judged.number != 0 {
        return refused(judged);
    }
    let size = form_length(t);
    let room = room_fault(size, out.len());
    if room.number != 0 {
        return refused(room);
    }
    let heap = heap_start(t);
    let signature = lay_form(out, t, size, heap);
    seal(out, size, t, heap, signature);
    Rewritten {
        answer: room,
        len: size,
    }
}
