// Which references to plain objects a record kind has: a match on the kind and on the reference's first byte. Those to heap records are none.
ghost use Rattle.std.specs.Prelude.{◌≡◌};
ghost use Rattle.table.specs.FixedLayouts.{layout_of};
ghost use Rattle.table.specs.Reads.{has_plain};

use table::{Discovery, Extended, Header, HfiExtended, Host, Info, Security, Ssns};

// Whether a record of this kind has a reference to an object at `off`.
#[tactic(auto, using(table::proofs::Rules::picks, crate::proofs::Laws::yes_or_no), unfolding(table::specs::FixedLayouts::layout_of, table::specs::FixedLayouts::header, table::specs::FixedLayouts::control, table::specs::FixedLayouts::host, table::specs::FixedLayouts::hfi, table::specs::FixedLayouts::ssns, table::specs::FixedLayouts::security, table::specs::FixedLayouts::discovery, table::specs::FixedLayouts::info, table::specs::FixedLayouts::extended, table::specs::FixedLayouts::hfi_extended, table::specs::FixedLayouts::no_kind))]
pub fn has_object(kind: u8, off: usize) -> bool
    ensures { result ≡ has_plain off (layout_of kind).refs }
{
    match kind {
        Header::ID => off == 44,
        Host::ID => off == 18,
        Ssns::ID => matches!(off, 10 | 16 | 48 | 54),
        Security::ID => matches!(off, 6 | 12 | 18 | 24 | 30 | 36),
        Discovery::ID => matches!(off, 6 | 12),
        Info::ID => off == 104,
        Extended::ID => off == 12,
        HfiExtended::ID => matches!(off, 8 | 14),
        _ => false,
    }
}
