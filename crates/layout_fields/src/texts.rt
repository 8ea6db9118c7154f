// Which objects are text: names of hosts, subsystems and controllers, host names, and a root path. All others are any bytes.
ghost use Rattle.std.specs.Prelude.{◌≡◌};
ghost use Rattle.table.specs.FixedLayouts.{layout_of};
ghost use Rattle.table.specs.Reads.{content_at};
ghost use Rattle.layout_fields.specs.Texts.{is_of_text};

use table::{Discovery, Extended, Host, Info, Ssns};

// By kind and the reference's first byte.
#[tactic(auto, using(table::proofs::Rules::picks, crate::proofs::Laws::text_or_not), unfolding(table::specs::FixedLayouts::layout_of, table::specs::FixedLayouts::header, table::specs::FixedLayouts::control, table::specs::FixedLayouts::host, table::specs::FixedLayouts::hfi, table::specs::FixedLayouts::ssns, table::specs::FixedLayouts::security, table::specs::FixedLayouts::discovery, table::specs::FixedLayouts::info, table::specs::FixedLayouts::extended, table::specs::FixedLayouts::hfi_extended, table::specs::FixedLayouts::no_kind))]
pub fn holds_text(kind: u8, off: usize) -> bool
    ensures { result ≡ is_of_text (content_at off (layout_of kind).refs) }
{
    match kind {
        Host::ID => off == 18,
        Ssns::ID => off == 54,
        Discovery::ID => matches!(off, 6 | 12),
        Info::ID => off == 104,
        Extended::ID => off == 12,
        _ => false,
    }
}
