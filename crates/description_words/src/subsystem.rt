// The words of a subsystem's section: an SSNS record, and under flag 4 its extended info.
ghost use Rattle.std.specs.Prelude.{IfSome};
ghost use Rattle.description_words.specs.Placed.{Placed};

use crate::{Form, INNER, Place, field, object};

fn extended_place(word: &[u8]) -> Option<Place>
    ensures { IfSome result Placed }
{
    match word {
        b"extended_flags" => Some(field(Form::Number, INNER + 4, 4)),
        b"controller" => Some(field(Form::Number, INNER + 8, 2)),
        b"queue_size" => Some(field(Form::Number, INNER + 10, 2)),
        b"dhcp_root_path" => Some(object(Form::Text, INNER + 12, 4)),
        _ => None,
    }
}

// The subsystem's address is 16 bytes where it is an Internet address, and else what a text says.
fn object_place(word: &[u8]) -> Option<Place>
    ensures { IfSome result Placed }
{
    match word {
        b"address" => Some(object(Form::Address, 10, 0)),
        b"address_text" => Some(object(Form::Text, 10, 0)),
        b"service_id" => Some(object(Form::Text, 16, 1)),
        b"other_hfis" => Some(object(Form::List, 48, 2)),
        b"nqn" => Some(object(Form::Text, 54, 3)),
        _ => extended_place(word),
    }
}

pub fn subsystem_place(word: &[u8]) -> Option<Place>
    ensures { IfSome result Placed }
{
    match word {
        b"flags" => Some(field(Form::Number, 3, 2)),
        b"transport_flags" => Some(field(Form::Number, 6, 2)),
        b"discovery" => Some(field(Form::Number, 8, 1)),
        b"port_id" => Some(field(Form::Number, 22, 2)),
        b"nsid" => Some(field(Form::Number, 24, 4)),
        b"nid_type" => Some(field(Form::Number, 28, 1)),
        b"nid" => Some(field(Form::Digits, 29, 16)),
        b"security" => Some(field(Form::Number, 45, 1)),
        b"hfi" => Some(field(Form::Number, 46, 1)),
        _ => object_place(word),
    }
}
