// Which fields a record kind has, and how many bytes each: a match on the kind and on the field's first byte.
ghost use Rattle.std.specs.Prelude.{◌≡◌};
ghost use Rattle.table.specs.FixedLayouts.{header, control, host, hfi, ssns, security, discovery, info, extended, hfi_extended, layout_of};
ghost use Rattle.table.specs.Reads.{width_at};

use table::{Control, Discovery, Extended, Header, Hfi, HfiExtended, Host, Info, Security, Ssns};

#[tactic(auto, using(table::proofs::Rules::picks), unfolding(table::specs::FixedLayouts::header))]
fn header_width(off: usize) -> usize
    ensures { result ≡ width_at off header.shape.fields }
{
    match off {
        10 => 6,
        16 => 8,
        24 | 28 | 32 => 4,
        _ => 0,
    }
}

#[tactic(auto, using(table::proofs::Rules::picks), unfolding(table::specs::FixedLayouts::control))]
fn control_width(off: usize) -> usize
    ensures { result ≡ width_at off control.shape.fields }
{
    match off {
        Control::HFI_COUNT
        | Control::SSNS_COUNT
        | Control::SECURITY_COUNT
        | Control::DISCOVERY_COUNT => 1,
        _ => 0,
    }
}

#[tactic(auto, using(table::proofs::Rules::picks), unfolding(table::specs::FixedLayouts::host))]
fn host_width(off: usize) -> usize
    ensures { result ≡ width_at off host.shape.fields }
{
    match off {
        0 | 1 => 1,
        2 => 16,
        _ => 0,
    }
}

#[tactic(auto, using(table::proofs::Rules::picks), unfolding(table::specs::FixedLayouts::hfi))]
fn hfi_width(off: usize) -> usize
    ensures { result ≡ width_at off hfi.shape.fields }
{
    match off {
        0 | 1 | 2 | 3 => 1,
        _ => 0,
    }
}

#[tactic(auto, using(table::proofs::Rules::picks), unfolding(table::specs::FixedLayouts::ssns))]
fn ssns_width(off: usize) -> usize
    ensures { result ≡ width_at off ssns.shape.fields }
{
    match off {
        0 | 5 | 8 | 28 | 45 | 46 => 1,
        1 | 3 | 6 | 22 => 2,
        24 => 4,
        29 => 16,
        _ => 0,
    }
}

#[tactic(auto, using(table::proofs::Rules::picks), unfolding(table::specs::FixedLayouts::security))]
fn security_width(off: usize) -> usize
    ensures { result ≡ width_at off security.shape.fields }
{
    match off {
        0 | 1 | 4 => 1,
        2 => 2,
        _ => 0,
    }
}

#[tactic(auto, using(table::proofs::Rules::picks), unfolding(table::specs::FixedLayouts::discovery))]
fn discovery_width(off: usize) -> usize
    ensures { result ≡ width_at off discovery.shape.fields }
{
    match off {
        0 | 1 | 2 | 3 | 4 => 1,
        _ => 0,
    }
}

#[tactic(auto, using(table::proofs::Rules::picks), unfolding(table::specs::FixedLayouts::info))]
fn info_width(off: usize) -> usize
    ensures { result ≡ width_at off info.shape.fields }
{
    match off {
        0 | 1 | 2 | 3 | 6 | 19 | 36 => 1,
        4 | 17 | 54 => 2,
        7 => 4,
        11 => 6,
        20 | 37 | 56 | 72 | 88 => 16,
        _ => 0,
    }
}

#[tactic(auto, using(table::proofs::Rules::picks), unfolding(table::specs::FixedLayouts::extended))]
fn extended_width(off: usize) -> usize
    ensures { result ≡ width_at off extended.shape.fields }
{
    match off {
        0 | 1 => 1,
        2 | 8 | 10 => 2,
        4 => 4,
        _ => 0,
    }
}

#[tactic(auto, using(table::proofs::Rules::picks), unfolding(table::specs::FixedLayouts::hfi_extended))]
fn hfi_extended_width(off: usize) -> usize
    ensures { result ≡ width_at off hfi_extended.shape.fields }
{
    match off {
        0 | 1 => 1,
        2 => 2,
        4 => 4,
        _ => 0,
    }
}

// How many bytes the field at `off` has, 0 where there is none.
#[tactic(auto, unfolding(table::specs::FixedLayouts::layout_of, table::specs::FixedLayouts::no_kind))]
pub fn field_width(kind: u8, off: usize) -> usize
    ensures { result ≡ width_at off (layout_of kind).shape.fields }
{
    match kind {
        Header::ID => header_width(off),
        Control::ID => control_width(off),
        Host::ID => host_width(off),
        Hfi::ID => hfi_width(off),
        Ssns::ID => ssns_width(off),
        Security::ID => security_width(off),
        Discovery::ID => discovery_width(off),
        Info::ID => info_width(off),
        Extended::ID => extended_width(off),
        HfiExtended::ID => hfi_extended_width(off),
        _ => 0,
    }
}
