// The bytes of a told record that the builder sets itself: ID, version, type, own index and valid bit.
ghost use Rattle.std.specs.Prelude.{◌≡◌, [], ◌∷◌, ◌+◌, ◌*◌, ◌/◌, ◌<◌, length, get_or};
ghost use Rattle.table.specs.Bytes.{splice};
ghost use Rattle.table.specs.Layout.{base_of};
ghost use Rattle.table.specs.FixedLayouts.{layout_of};
ghost use Rattle.builder_told.specs.Marks.{Tellable, stamped, marked};

use bytes_writer::stores::{copy_into, low, put_u8, put_u16};
use table::{Discovery, Extended, Hfi, HfiExtended, Host, Info, Security, Ssns};

// All but the valid bit; `position` is the record's own position, or its owner's.
fn stamp(bytes: &mut [u8], kind: u8, position: usize)
    requires { Tellable kind × (length bytes.old ≡ base_of (layout_of kind)) }
    ensures { bytes.new ≡ stamped (layout_of kind).shape position bytes.old }
{
    match kind {
        Host::ID => {
            put_u8(bytes, 0, Host::ID);
        }
        Hfi::ID => {
            put_u8(bytes, 0, Hfi::ID);
            put_u8(bytes, 3, 3);
            put_u8(bytes, 1, low(position));
        }
        Ssns::ID => {
            put_u8(bytes, 0, Ssns::ID);
            put_u8(bytes, 5, 3);
            put_u16(bytes, 1, position);
        }
        Security::ID => {
            put_u8(bytes, 0, Security::ID);
            put_u8(bytes, 1, low(position));
        }
        Discovery::ID => {
            put_u8(bytes, 0, Discovery::ID);
            put_u8(bytes, 2, low(position));
        }
        // Byte 3, the version of its transport info, stays as told: both versions can be.
        Info::ID => {
            let info_lead = [Info::ID, 1, 3];
            copy_into(bytes, 0, &info_lead);
            put_u16(bytes, 4, position);
        }
        // The extended infos of SSNS and HFI begin alike.
        _ => {
            let lead = [kind, 1];
            copy_into(bytes, 0, &lead);
            put_u16(bytes, 2, position);
        }
    }
}

fn set_valid(bytes: &mut [u8], at: usize)
    requires { at < length bytes.old }
    ensures { bytes.new ≡ splice bytes.old at ((get_or bytes.old at 0 / 2 * 2 + 1) ∷ []) }
{
    let flags = bytes[at] / 2 * 2 + 1;
    put_u8(bytes, at, flags);
}

// The record as the builder takes it.
fn mark(bytes: &mut [u8], kind: u8, position: usize)
    requires { Tellable kind × (length bytes.old ≡ base_of (layout_of kind)) }
    ensures { bytes.new ≡ marked (layout_of kind).shape position bytes.old }
{
    stamp(bytes, kind, position);
    set_valid(bytes, layout_kinds::flags_at(kind));
}

// The same by value, for a record of any kind.
pub fn mark_whole<const N: usize>(told: [u8; N], kind: u8, position: usize) -> [u8; N]
    requires { Tellable kind × (base_of (layout_of kind) ≡ N) }
    ensures { (result ≡ marked (layout_of kind).shape position told.entry) × (length told.entry ≡ N) × (length result ≡ N) }
{
    let mut bytes = told;
    mark(&mut bytes, kind, position);
    bytes
}
