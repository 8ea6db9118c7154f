// The record kinds: what each is called in a table (ID) and how long it is there (SIZE). Code elsewhere names these constants and writes no such number.
// A record is held by its bytes in table layout, so that a caller's bytes can be taken as they are. A kind is its number and no enum: the definitions
// (`layout_of`, `read_record`) take any number, C's callers ask with any, and one that is no kind has an answer of its own, 16.

// The table's first bytes. It has no ID of its own; reads ask for it by kind 0.
#[derive(Clone, Copy)]
pub struct Header {
    pub bytes: [u8; Header::SIZE],
}

impl Header {
    pub const SIZE: usize = 64;

    pub const ID: u8 = 0;
}

// It stands behind the header. Its offsets are the table's, so that it is read from the table's first byte on.
#[derive(Clone, Copy)]
pub struct Control {
    pub bytes: [u8; Control::SIZE],
}

impl Control {
    pub const SIZE: usize = 64;

    pub const ID: u8 = 1;

    // The reference to the host record.
    pub const HOST: usize = 72;

    // The entries of the four lists: each an offset, a record length, a version and a count.
    pub const HFI_LIST: usize = 80;

    pub const SSNS_LIST: usize = 88;

    pub const SECURITY_LIST: usize = 96;

    pub const DISCOVERY_LIST: usize = 104;

    // The counts, each the last byte of its entry.
    pub const HFI_COUNT: usize = 87;

    pub const SSNS_COUNT: usize = 95;

    pub const SECURITY_COUNT: usize = 103;

    pub const DISCOVERY_COUNT: usize = 111;
}

#[derive(Clone, Copy)]
pub struct Host {
    pub bytes: [u8; Host::SIZE],
}

impl Host {
    pub const SIZE: usize = 32;

    pub const ID: u8 = 2;
}

#[derive(Clone, Copy)]
pub struct Hfi {
    pub bytes: [u8; Hfi::SIZE],
}

impl Hfi {
    pub const SIZE: usize = 32;

    pub const ID: u8 = 3;
}

#[derive(Clone, Copy)]
pub struct Ssns {
    pub bytes: [u8; Ssns::SIZE],
}

impl Ssns {
    pub const SIZE: usize = 128;

    pub const ID: u8 = 4;
}

#[derive(Clone, Copy)]
pub struct Security {
    pub bytes: [u8; Security::SIZE],
}

impl Security {
    pub const SIZE: usize = 64;

    pub const ID: u8 = 5;
}

#[derive(Clone, Copy)]
pub struct Discovery {
    pub bytes: [u8; Discovery::SIZE],
}

impl Discovery {
    pub const SIZE: usize = 32;

    pub const ID: u8 = 6;
}

// HFI transport info, in the heap.
#[derive(Clone, Copy)]
pub struct Info {
    pub bytes: [u8; Info::SIZE],
}

impl Info {
    pub const SIZE: usize = 128;

    pub const ID: u8 = 7;
}

// SSNS extended info, in the heap.
#[derive(Clone, Copy)]
pub struct Extended {
    pub bytes: [u8; Extended::SIZE],
}

impl Extended {
    pub const SIZE: usize = 18;

    pub const ID: u8 = 9;
}

// HFI extended info (DHCP identity), in the heap, named by an info of version 2.
#[derive(Clone, Copy)]
pub struct HfiExtended {
    pub bytes: [u8; HfiExtended::SIZE],
}

impl HfiExtended {
    pub const SIZE: usize = 20;

    pub const ID: u8 = 10;
}
