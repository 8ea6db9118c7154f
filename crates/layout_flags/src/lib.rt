// A record's flags as numbers, without their reserved bits, and the two-bit fields among them. What a reader tests of them a builder tests too.
#![tactic(auto)]

ghost use Rattle.std.specs.Prelude.{◌≡◌, ◌+◌, ◌≤◌, length};
ghost use Rattle.table.specs.Bytes.{num};
ghost use Rattle.table.specs.Layout.{base_of, pairs_right};
ghost use Rattle.table.specs.FixedLayouts.{layout_of, ssns, security, hfi_extended};
ghost use Rattle.laws.specs.Fields.{image_in};
ghost use Rattle.layout_flags.specs.Flags.{pair_right, security_pairs};

use table::{Host, Security, Ssns};

// Nine bits count.
pub fn ssns_flags(t: &[u8], a: usize) -> usize
    requires { a + 128 ≤ length t.now }
    ensures { result ≡ num (image_in ssns t.now a) 3 2 }
{
    bytes_wire::wide(t[a + 3]) + 256 * bytes_wire::wide(t[a + 4] % 2)
}

// Twelve bits count.
pub fn security_flags(t: &[u8], a: usize) -> usize
    requires { a + 64 ≤ length t.now }
    ensures { result ≡ num (image_in security t.now a) 2 2 }
{
    bytes_wire::wide(t[a + 2]) + 256 * bytes_wire::wide(t[a + 3] % 16)
}

// Those of an HFI extended info, by its own bytes: two bits count.
pub fn identity_flags(bytes: &[u8]) -> usize
    requires { 20 ≤ length bytes.now }
    ensures { result ≡ num (image_in hfi_extended bytes.now 0) 4 4 }
{
    bytes_wire::wide(bytes[4] % 4)
}

// Flags shifted so that a two-bit field stands lowest: it has no value 3.
fn pair_right(shifted: usize) -> bool
    ensures { result ≡ pair_right shifted }
{
    shifted % 4 != 3
}

#[tactic(auto, unfolding(crate::specs::Flags::security_pairs))]
fn security_pairs(flags: usize) -> bool
    ensures { result ≡ security_pairs flags }
{
    pair_right(flags / 2)
        && pair_right(flags / 8)
        && pair_right(flags / 32)
        && pair_right(flags / 128)
}

// No two-bit field of the record at `a` is 3. Kinds without such fields have none that is wrong.
pub fn pairs_right(t: &[u8], kind: u8, a: usize) -> bool
    requires { (2 ≤ kind) × (kind ≤ 6) × (a + base_of (layout_of kind) ≤ length t.now) }
    ensures { result ≡ pairs_right (layout_of kind).shape (image_in (layout_of kind) t.now a) }
{
    match kind {
        Host::ID => pair_right(bytes_wire::wide(t[a + 1] % 32) / 8),
        Ssns::ID => pair_right(ssns_flags(t, a) / 128),
        Security::ID => security_pairs(security_flags(t, a)),
        _ => true,
    }
}
