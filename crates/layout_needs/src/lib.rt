// Which references of a record count: required, optional, or ignored under its flags.
#![tactic(auto)]

ghost use Rattle.std.specs.Prelude.{◌≡◌, ◌+◌, ◌≤◌, length};
ghost use Rattle.table.specs.FixedLayouts.{security, hfi_extended};
ghost use Rattle.table.specs.Reads.{need_at};
ghost use Rattle.laws.specs.Fields.{image_in};
ghost use Rattle.layout_needs.specs.Needs.{when_set, ssns_need, security_need, identity_need, plain_need};

use layout_flags::security_flags;
use table::{Discovery, Extended, Header, Host, Info, Need};

#[tactic(auto, unfolding(crate::specs::Needs::when_set))]
fn when_set(n: usize) -> Need
    ensures { result ≡ when_set n }
{
    if n == 0 {
        Need::Ignored
    } else {
        Need::Required
    }
}

#[tactic(auto, unfolding(crate::specs::Needs::ssns_need))]
pub fn ssns_need(flags: usize, off: usize) -> Need
    ensures { result ≡ ssns_need flags off }
{
    match off {
        10 | 16 | 54 => Need::Required,
        48 => Need::Optional,
        60 => when_set(flags / 16 % 2),
        _ => Need::Ignored,
    }
}

#[tactic(auto, unfolding(crate::specs::Needs::security_need))]
fn security_judge(flags: usize, secret: usize, off: usize) -> Need
    ensures { result ≡ security_need flags secret off }
{
    match off {
        6 => when_set(flags / 128 % 4),
        12 => when_set(flags / 8 % 4),
        18 => when_set(flags / 512 % 2),
        24 => when_set(flags / 1024 % 2),
        30 => when_set(flags / 2048 % 2),
        36 => when_set(secret / 1 % 2),
        _ => Need::Ignored,
    }
}

pub fn security_need(t: &[u8], a: usize, off: usize) -> Need
    requires { a + 64 ≤ length t.now }
    ensures { result ≡ need_at off security.refs (image_in security t.now a) }
{
    security_judge(security_flags(t, a), bytes_wire::wide(t[a + 4] % 2), off)
}

#[tactic(auto, unfolding(crate::specs::Needs::identity_need))]
fn identity_judge(flags: usize, off: usize) -> Need
    ensures { result ≡ identity_need flags off }
{
    match off {
        8 | 14 => when_set(flags / 2 % 2),
        _ => Need::Ignored,
    }
}

// IAID and DUID of an HFI extended info, by its own bytes.
pub fn identity_need(bytes: &[u8], off: usize) -> Need
    requires { 20 ≤ length bytes.now }
    ensures { result ≡ need_at off hfi_extended.refs (image_in hfi_extended bytes.now 0) }
{
    identity_judge(layout_flags::identity_flags(bytes), off)
}

// Header, host, discovery, transport info and extended info: their fields have no say in which objects they name.
#[tactic(auto, using(table::proofs::Rules::picks), unfolding(crate::specs::Needs::plain_need))]
pub fn plain_need(kind: u8, off: usize) -> Need
    ensures { result ≡ plain_need kind off }
{
    match (kind, off) {
        (Host::ID, 18) => Need::Required,
        (Header::ID, 44) | (Discovery::ID, 6 | 12) | (Info::ID, 104) | (Extended::ID, 12) => {
            Need::Optional
        }
        _ => Need::Ignored,
    }
}
