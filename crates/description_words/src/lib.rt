// What a line of a description tells, by its section and its first word: which field or object, and how its value is written.
#![tactic(auto)]

use table::{Discovery, Header, Hfi, Host, Security, Ssns};

pub mod hfi; // transport info and HFI extended info
pub mod subsystem; // an SSNS record and its extended info

ghost use Rattle.std.specs.Prelude.{◌+◌, ◌≤◌, IfSome};
ghost use Rattle.description_words.specs.Placed.{Placed};

use hfi::hfi_place;
use subsystem::subsystem_place;

// How a value is written.
#[derive(Clone, Copy, PartialEq, Eq)]
pub enum Form {
    Number,
    Text,
    Digits,
    Interface,
    Function,
    Address,
    List,
}

// Fields and references of a heap record are counted from here on, behind those of the record that names it.
pub const INNER: usize = 128;

// Those of an HFI extended info, which a heap record names, from here on: behind the HFI's own bytes.
pub const IDENTITY: usize = 32;

// Where a field stands and how many bytes it has; of an object, which has none there, where its reference stands, and which of the record's objects it is.
#[derive(Clone, Copy)]
pub struct Place {
    pub form: Form,
    pub at: usize,
    pub width: usize,
    pub slot: usize,
}

pub fn field(form: Form, at: usize, width: usize) -> Place
    requires { (at ≤ 255) × (at + width ≤ 256) × (width ≤ 16) }
    ensures { Placed result }
{
    Place {
        form,
        at,
        width,
        slot: 0,
    }
}

pub fn object(form: Form, at: usize, slot: usize) -> Place
    requires { (at ≤ 255) × (slot ≤ 5) }
    ensures { Placed result }
{
    Place {
        form,
        at,
        width: 0,
        slot,
    }
}

fn header_place(word: &[u8]) -> Option<Place>
    ensures { IfSome result Placed }
{
    match word {
        b"oem_id" => Some(field(Form::Text, 10, 6)),
        b"oem_table_id" => Some(field(Form::Text, 16, 8)),
        b"oem_revision" => Some(field(Form::Number, 24, 4)),
        b"creator_id" => Some(field(Form::Text, 28, 4)),
        b"creator_revision" => Some(field(Form::Number, 32, 4)),
        b"driver_signature" => Some(object(Form::Text, 44, 0)),
        _ => None,
    }
}

fn host_place(word: &[u8]) -> Option<Place>
    ensures { IfSome result Placed }
{
    match word {
        b"flags" => Some(field(Form::Number, 1, 1)),
        b"host_id" => Some(field(Form::Digits, 2, 16)),
        b"nqn" => Some(object(Form::Text, 18, 0)),
        _ => None,
    }
}

fn security_place(word: &[u8]) -> Option<Place>
    ensures { IfSome result Placed }
{
    match word {
        b"flags" => Some(field(Form::Number, 2, 2)),
        b"secret_type" => Some(field(Form::Number, 4, 1)),
        b"channels" => Some(object(Form::Digits, 6, 0)),
        b"authentications" => Some(object(Form::Digits, 12, 1)),
        b"ciphers" => Some(object(Form::Digits, 18, 2)),
        b"groups" => Some(object(Form::Digits, 24, 3)),
        b"hashes" => Some(object(Form::Digits, 30, 4)),
        b"keypath" => Some(object(Form::Text, 36, 5)),
        _ => None,
    }
}

fn discovery_place(word: &[u8]) -> Option<Place>
    ensures { IfSome result Placed }
{
    match word {
        b"hfi" => Some(field(Form::Number, 3, 1)),
        b"security" => Some(field(Form::Number, 4, 1)),
        b"uri" => Some(object(Form::Text, 6, 0)),
        b"nqn" => Some(object(Form::Text, 12, 1)),
        _ => None,
    }
}

// What a word means in a section of a kind.
pub fn place_of(kind: u8, word: &[u8]) -> Option<Place>
    ensures { IfSome result Placed }
{
    match kind {
        Header::ID => header_place(word),
        Host::ID => host_place(word),
        Hfi::ID => hfi_place(word),
        Ssns::ID => subsystem_place(word),
        Security::ID => security_place(word),
        Discovery::ID => discovery_place(word),
        _ => None,
    }
}
