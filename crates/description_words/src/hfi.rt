// The words of an HFI's section: its transport info, the host name and the HFI extended info that this names.
ghost use Rattle.std.specs.Prelude.{◌+◌, ◌≤◌, IfSome};
ghost use Rattle.description_words.specs.Placed.{Placed};

use crate::{Form, IDENTITY, INNER, Place, field, object};

fn told(form: Form, at: usize, width: usize) -> Place
    requires { (at ≤ 127) × (at + width ≤ 128) × (width ≤ 16) }
    ensures { Placed result }
{
    field(form, INNER + at, width)
}

// The HFI extended info, by which a DHCP server knows the interface.
fn identity_place(word: &[u8]) -> Option<Place>
    ensures { IfSome result Placed }
{
    match word {
        b"identity_flags" => Some(field(Form::Number, IDENTITY + 4, 4)),
        b"iaid" => Some(object(Form::Digits, IDENTITY + 8, 1)),
        b"duid" => Some(object(Form::Digits, IDENTITY + 14, 2)),
        _ => None,
    }
}

// What else there is: addresses, and the HFI extended info.
fn address_place(word: &[u8]) -> Option<Place>
    ensures { IfSome result Placed }
{
    match word {
        b"ip_address" => Some(told(Form::Address, 20, 16)),
        b"gateway" => Some(told(Form::Address, 37, 16)),
        b"dns" => Some(told(Form::Address, 56, 16)),
        b"second_dns" => Some(told(Form::Address, 72, 16)),
        b"dhcp_server" => Some(told(Form::Address, 88, 16)),
        _ => identity_place(word),
    }
}

pub fn hfi_place(word: &[u8]) -> Option<Place>
    ensures { IfSome result Placed }
{
    match word {
        b"info_version" => Some(told(Form::Number, 3, 1)),
        b"flags" => Some(told(Form::Number, 6, 1)),
        b"pci_address" => Some(told(Form::Function, 7, 4)),
        b"mac_address" => Some(told(Form::Interface, 11, 6)),
        b"vlan" => Some(told(Form::Number, 17, 2)),
        b"ip_origin" => Some(told(Form::Number, 19, 1)),
        b"mask" => Some(told(Form::Number, 36, 1)),
        b"route_metric" => Some(told(Form::Number, 54, 2)),
        b"host_name" => Some(object(Form::Text, INNER + 104, 0)),
        _ => address_place(word),
    }
}
