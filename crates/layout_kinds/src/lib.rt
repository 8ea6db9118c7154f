// What differs from kind to kind, looked up by its number. A number that is no kind has size 0 and no references, as in the definitions.
#![tactic(auto, unfolding(table::specs::FixedLayouts::layout_of, table::specs::FixedLayouts::header, table::specs::FixedLayouts::control, table::specs::FixedLayouts::host, table::specs::FixedLayouts::hfi, table::specs::FixedLayouts::ssns, table::specs::FixedLayouts::security, table::specs::FixedLayouts::discovery, table::specs::FixedLayouts::info, table::specs::FixedLayouts::extended, table::specs::FixedLayouts::hfi_extended, table::specs::FixedLayouts::no_kind,))]

ghost use Rattle.std.specs.Prelude.{◌≡◌, ◌≤◌, length};
ghost use Rattle.table.specs.Layout.{offsets, base_of};
ghost use Rattle.table.specs.FixedLayouts.{layout_of};
ghost use Rattle.layout_kinds.specs.References.{object_refs};

use table::{Control, Discovery, Extended, Header, Hfi, HfiExtended, Host, Info, Security, Ssns};

// The one transport type: that of every HFI, SSNS and transport info record.
pub const TCP: u8 = 3;

// How many bytes a record of this kind has; in a table it may be longer. The control record is read from the table's first byte on.
pub fn base_size(kind: u8) -> usize
    ensures { result ≡ base_of (layout_of kind) }
{
    match kind {
        Header::ID => Header::SIZE,
        Control::ID => table::FRONT,
        Host::ID => Host::SIZE,
        Hfi::ID => Hfi::SIZE,
        Ssns::ID => Ssns::SIZE,
        Security::ID => Security::SIZE,
        Discovery::ID => Discovery::SIZE,
        Info::ID => Info::SIZE,
        Extended::ID => Extended::SIZE,
        HfiExtended::ID => HfiExtended::SIZE,
        _ => 0,
    }
}

// Where the flags of a record of this kind start; their lowest bit is Descriptor Valid. Header and control record have no flags of this sort.
pub fn flags_at(kind: u8) -> usize
    ensures { result ≡ (layout_of kind).shape.flags.at }
{
    match kind {
        Header::ID => 0,
        Control::ID => 0,
        Host::ID => 1,
        Hfi::ID => 2,
        Ssns::ID => 3,
        Security::ID => 2,
        Discovery::ID => 1,
        Info::ID => 6,
        Extended::ID => 4,
        HfiExtended::ID => 4,
        _ => 0,
    }
}

// The references of each kind, in the order in which they are checked and written.
pub fn reference_offsets(kind: u8) -> &'static [usize]
    ensures { (result.now ≡ offsets (layout_of kind).refs) × (length result.now ≤ 6) }
{
    match kind {
        Header::ID => &[44],
        Control::ID => &[],
        Host::ID => &[18],
        Hfi::ID => &[16],
        Ssns::ID => &[10, 16, 48, 54, 60],
        Security::ID => &[6, 12, 18, 24, 30, 36],
        Discovery::ID => &[6, 12],
        Info::ID => &[104, 110],
        Extended::ID => &[12],
        HfiExtended::ID => &[8, 14],
        _ => &[],
    }
}

// How many of them name objects. These come first, and behind them the one that names a heap record, if the kind has one.
pub fn object_count(kind: u8) -> usize
    ensures { (result ≡ length (object_refs (layout_of kind).refs)) × (result ≤ 6) }
{
    match kind {
        Header::ID => 1,
        Control::ID => 0,
        Host::ID => 1,
        Hfi::ID => 0,
        Ssns::ID => 4,
        Security::ID => 6,
        Discovery::ID => 2,
        Info::ID => 1,
        Extended::ID => 1,
        HfiExtended::ID => 2,
        _ => 0,
    }
}

// Where those to objects stand in a record of this kind.
pub fn object_offsets(kind: u8) -> &'static [usize]
    ensures { (result.now ≡ object_refs (layout_of kind).refs) × (length result.now ≤ 6) }
{
    let offsets = reference_offsets(kind);
    &offsets[..object_count(kind)]
}
