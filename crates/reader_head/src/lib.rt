// What header and control record say, as a struct by value: the tests of the frame, 1 to 9, look at it and not at the table. The walks over the records
// behind them (reader, lists, indexes) read an entry or a place from the table again, where they need it.
#![tactic(auto)]

ghost use Rattle.std.specs.Prelude.{◌≡◌, ◌+◌, ◌≤◌, length};
ghost use Rattle.reader_head.specs.Head.{long_region, entry_in, head_of, Narrow, NarrowRegion, NarrowEntry};

use table::{Control, Region};

// A list as the control record has it: where it starts, how long each record is, their version and their number.
#[derive(Clone, Copy)]
pub struct Entry {
    pub at: usize,
    pub step: usize,
    pub version: u8,
    pub count: usize,
}

// What header and control record say, as far as the tests look at it.
#[derive(Clone, Copy)]
pub struct Head {
    pub signature: usize,
    pub size: usize,
    pub major: u8,
    pub controlid: u8,
    pub controlmajor: u8,
    pub csl: usize,
    pub flags: u8,
    pub host: Region,
    pub hostversion: u8,
    pub heap: Region,
    pub hfi: Entry,
    pub ssns: Entry,
    pub security: Entry,
    pub discovery: Entry,
}

// An offset with a length of four bytes, as the heap has it.
pub fn region_at(t: &[u8], at: usize) -> Region
    requires { at + 8 ≤ length t.now }
    ensures { (result ≡ long_region t.now at) × NarrowRegion result }
{
    Region {
        at: bytes_wire::u32_at(t, at),
        len: bytes_wire::u32_at(t, at + 4),
    }
}

pub fn entry_at(t: &[u8], at: usize) -> Entry
    requires { at + 8 ≤ length t.now }
    ensures { (result ≡ entry_in t.now at) × NarrowEntry result }
{
    Entry {
        at: bytes_wire::u32_at(t, at),
        step: bytes_wire::u16_at(t, at + 4),
        version: t[at + 6],
        count: bytes_wire::wide(t[at + 7]),
    }
}

pub fn head_of(t: &[u8]) -> Head
    requires { 160 ≤ length t.now }
    ensures { (result ≡ head_of t.now) × Narrow result }
{
    Head {
        signature: bytes_wire::u32_at(t, 0),
        size: bytes_wire::u32_at(t, 4),
        major: t[8],
        controlid: t[64],
        controlmajor: t[65],
        csl: bytes_wire::u16_at(t, 68),
        flags: t[70],
        host: bytes_wire::reference_at(t, Control::HOST),
        hostversion: t[78],
        heap: region_at(t, 36),
        hfi: entry_at(t, Control::HFI_LIST),
        ssns: entry_at(t, Control::SSNS_LIST),
        security: entry_at(t, Control::SECURITY_LIST),
        discovery: entry_at(t, Control::DISCOVERY_LIST),
    }
}
