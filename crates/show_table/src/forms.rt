// The ways in which a value is made from what a row reads, and where people see it. `Values` (show_values) says what each way gives.
ghost use Rattle.std.specs.Prelude.{◌≡◌};
ghost use Rattle.show_table.specs.Numbered.{form_of};

#[derive(Clone, Copy, PartialEq, Eq)]
pub enum Form {
    // nothing is read
    Nothing,
    // the header or the host, an object of its own
    Single,
    // the records of a list, by their count
    Listed,
    // the positions of the lists that are not used
    Unused,
    // the record's position
    Position,
    // a number of up to four bytes
    Number,
    // the same as a signed number of 32 bits
    Signed,
    // one bit: 0 or 1
    Flag,
    // whether two bits are 2: 0 or 1
    IsTwo,
    // two bits: whether this is the primary administrative host
    Primary,
    // two bits: whether the namespace is available
    Availability,
    // two bits: whether something is wanted
    Wanted,
    // two bits: who chose a list
    Chosen,
    // the transport type
    Transport,
    // sixteen bytes as a UUID
    Uuid,
    // sixteen bytes, two digits each
    Hex,
    // an internet address of sixteen bytes
    Address,
    // such an address where a bit of another field is set, else empty
    Server,
    // the address of a network interface
    Mac,
    // bus, device and function, without zeros in front and without the segment
    ShortPci,
    // segment, bus, device and function
    Pci,
    // what nvme-cli prints whatever the bits are
    NotIndicated,
    // the type of a namespace identifier, left out where it has no name
    NidType,
    // the identifier as its type, another field, has it, else empty
    Nid,
    // a number where a bit of another field is set, else 0
    NumberIf,
    // a field's bytes as characters
    Name,
    // a number, null where it is 0
    OrNull,
    // a number, left out where it is 0
    OrOut,
    // a number, null where the record is absent
    IfThere,
    // an object's bytes as characters, left out where it is absent
    Text,
    // the same, null where it is absent
    BytesText,
    // an object's first sixteen bytes as an address; where it has fewer, its characters
    Reached,
    // an object's characters before the first zero
    Service,
    // an object's bytes, two digits each, null where it is absent
    Bytes,
    // the HFI of another field, then those of a list that are not the same
    Hfis,
    // how many these are
    HfiCount,
    // the positions that an object lists
    Positions,
}

// The ways in the order of their numbers.
static NUMBERED: [Form; 37] = [
    Form::Nothing,
    Form::Single,
    Form::Listed,
    Form::Unused,
    Form::Position,
    Form::Number,
    Form::Signed,
    Form::Flag,
    Form::IsTwo,
    Form::Primary,
    Form::Availability,
    Form::Wanted,
    Form::Chosen,
    Form::Transport,
    Form::Uuid,
    Form::Hex,
    Form::Address,
    Form::Server,
    Form::Mac,
    Form::ShortPci,
    Form::Pci,
    Form::NotIndicated,
    Form::NidType,
    Form::Nid,
    Form::NumberIf,
    Form::Name,
    Form::OrNull,
    Form::OrOut,
    Form::IfThere,
    Form::Text,
    Form::BytesText,
    Form::Reached,
    Form::Service,
    Form::Bytes,
    Form::Hfis,
    Form::HfiCount,
    Form::Positions,
];

// Who has the number of a way gets the way. A number that is none of theirs reads nothing, and is printed as one that has no way of its own.
impl From<u64> for Form {
    ghost from_gives = { λ number form. form ≡ form_of number };

    fn from(number: u64) -> Form
        ensures { result ≡ form_of number }
    {
        if 37 <= number {
            return Form::Nothing;
        }
        NUMBERED[number as usize]
    }
}

#[derive(Clone, Copy, PartialEq, Eq)]
pub enum View {
    // nowhere, since another line says it better
    Json,
    // below the tables, in the record's own lines, where it says something
    Lines,
    // there too, but only where all is asked for
    Detail,
    // in a column of the tables, by its number
    Column(usize),
}
