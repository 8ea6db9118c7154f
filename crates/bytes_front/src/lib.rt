// Header and control record, each into its own part.
#![tactic(auto)]

ghost use Rattle.std.specs.Prelude.{◌≡◌, [], ◌∷◌, ◌++◌, ◌+◌, ◌≤◌, length};
ghost use Rattle.table.specs.Bytes.{le, splice};
ghost use Rattle.bytes_front.specs.Front.{header_for, entry_for, control_for};

use bytes_writer::records::put_slot;
use bytes_writer::stores::{copy_into, fill_zero, put_u8, put_u16, put_u32};
use table::{Control, Header};

// The header's minor stands right behind the reference to the driver signature, and behind it the bytes are reserved.
const MINOR: usize = 50;

const HEADER_REST: usize = MINOR + 1;

const HEADER_RESERVED: usize = Header::SIZE - HEADER_REST;

// The low byte of the control record's own length; the other is 0.
const CONTROL_LENGTH: u8 = Control::SIZE as u8;

// Where the entries stand in the control record's own part; its offsets are the table's.
const HOST: usize = Control::HOST - Header::SIZE;

const HFI_LIST: usize = Control::HFI_LIST - Header::SIZE;

const SSNS_LIST: usize = Control::SSNS_LIST - Header::SIZE;

const SECURITY_LIST: usize = Control::SECURITY_LIST - Header::SIZE;

const DISCOVERY_LIST: usize = Control::DISCOVERY_LIST - Header::SIZE;

// The bytes behind the last entry are reserved.
const CONTROL_REST: usize = DISCOVERY_LIST + 8;

const CONTROL_RESERVED: usize = Control::SIZE - CONTROL_REST;

// How many records each list has.
#[derive(Clone, Copy)]
pub struct Counts {
    pub hfi: u8,
    pub ssns: u8,
    pub security: u8,
    pub discovery: u8,
}

// The header of a table of `size` bytes, with a heap of `heapsize` bytes at `heap`, first in it a driver signature of `signature` bytes, and a minor.
// The checksum is 0, so that it can be counted over the finished table and stored then.
pub fn write_header(
    part: &mut [u8],
    oem: &[u8],
    size: usize,
    heap: usize,
    heapsize: usize,
    signature: usize,
    minor: u8,
)
    requires part_len { length part.old ≡ 64 }
    requires oem_len { length oem.now ≡ 26 }
    ensures { part.new ≡ header_for size oem.now heap heapsize signature minor }
{
    put_u32(part, 0, table::SIGNATURE);
    put_u32(part, 4, size);
    put_u8(part, 8, 1);
    put_u8(part, 9, 0);
    copy_into(part, 10, oem);
    put_u32(part, 36, heap);
    put_u32(part, 40, heapsize);
    put_slot(part, 44, heap, signature);
    put_u8(part, MINOR, minor);
    fill_zero(part, HEADER_REST, HEADER_RESERVED);
}

// Place, record size, version 1 and last byte: a list's entry has its count there, the host's a reserved byte.
fn put_place(part: &mut [u8], at: usize, place: usize, size: usize, last: u8)
    requires { at + 8 ≤ length part.old }
    ensures { part.new ≡ splice part.old at (le 4 place ++ (le 2 size ++ (1 ∷ last ∷ []))) }
{
    put_u32(part, at, place);
    put_u16(part, at + 4, size);
    put_u8(part, at + 6, 1);
    put_u8(part, at + 7, last);
}

// The entry of a list; an empty list has no place and no size, whatever place the caller counted up to.
fn put_entry(part: &mut [u8], at: usize, place: usize, size: usize, count: u8)
    requires { at + 8 ≤ length part.old }
    ensures { part.new ≡ splice part.old at (entry_for place size count) }
{
    if count == 0 {
        put_place(part, at, 0, 0, 0);
    } else {
        put_place(part, at, place, size, count);
    }
}

// The control record: the host stands behind it, and the lists behind the host, each right behind the one before.
pub fn write_control(part: &mut [u8], counts: Counts)
    requires { length part.old ≡ 64 }
    ensures { part.new ≡ control_for (counts.hfi ∷ counts.ssns ∷ counts.security ∷ counts.discovery ∷ []) }
{
    // ID, revision 1.0, a reserved byte, the record's own length, flags: valid, a reserved byte.
    let lead = [Control::ID, 1, 0, 0, CONTROL_LENGTH, 0, 1, 0];
    let host = table::FRONT;
    let hfi = table::SHORTEST;
    let ssns = hfi + (counts.hfi as usize) * table::Hfi::SIZE;
    let security = ssns + (counts.ssns as usize) * table::Ssns::SIZE;
    let discovery = security + (counts.security as usize) * table::Security::SIZE;
    copy_into(part, 0, &lead);
    put_place(part, HOST, host, table::Host::SIZE, 0);
    put_entry(part, HFI_LIST, hfi, table::Hfi::SIZE, counts.hfi);
    put_entry(part, SSNS_LIST, ssns, table::Ssns::SIZE, counts.ssns);
    put_entry(
        part,
        SECURITY_LIST,
        security,
        table::Security::SIZE,
        counts.security,
    );
    put_entry(
        part,
        DISCOVERY_LIST,
        discovery,
        table::Discovery::SIZE,
        counts.discovery,
    );
    fill_zero(part, CONTROL_REST, CONTROL_RESERVED);
}

// Both, into the first bytes of `out`.
pub fn write_front(
    out: &mut [u8],
    oem: &[u8],
    counts: Counts,
    size: usize,
    heap: usize,
    heapsize: usize,
    signature: usize,
    minor: u8,
)
    requires { (128 ≤ length out.old) × (length oem.now ≡ 26) }
    ensures { out.new ≡ splice (splice out.old 0 (header_for size oem.now heap heapsize signature minor)) 64 (control_for (counts.hfi ∷ counts.ssns ∷ counts.security ∷ counts.discovery ∷ [])) }
{
    write_header(
        &mut out[0..Header::SIZE],
        oem,
        size,
        heap,
        heapsize,
        signature,
        minor,
    );
    write_control(&mut out[Header::SIZE..table::FRONT], counts);
}
