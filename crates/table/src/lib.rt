// The record kinds of the boot table as data: sizes and designators; and the types that definitions and code share.
#![tactic(auto)]

ghost use Rattle.std.specs.Prelude.{◌≡◌};
ghost use Rattle.table.specs.Rules.{answer};
ghost use Rattle.table.specs.Rules as rules;

pub mod records; // the record structs with SIZE and ID

pub use records::{
    Control, Discovery, Extended, Header, Hfi, HfiExtended, Host, Info, Security, Ssns,
};

// No table is longer.
pub const LIMIT: usize = 65536;

// The table's first four bytes, 4E 42 46 54, as a number.
pub const SIGNATURE: usize = 0x5446424E;

// Header and control record: where the host stands in the one form.
pub const FRONT: usize = Header::SIZE + Control::SIZE;

// With the host: where the lists start in the one form, and the least Length.
pub const SHORTEST: usize = FRONT + Host::SIZE;

// What every call answers: a number of Rules 4.2 (docs/RULES.md), and the kind and position of the record at fault. Numbers and no enums or `Result`:
// the definitions answer so (`answer` and `first_fail` in Rules.antt), the theorems of `laws` speak of them, and C's callers get them.
#[derive(Clone, Copy)]
pub struct Answer {
    pub number: u8,
    pub kind: u8,
    pub position: usize,
}

// The answer of a call that did what it was asked.
pub fn done() -> Answer
    ensures { result ≡ rules.done }
{
    refuse(0, 0, 0)
}

// Any other answer: position 0 outside the lists.
pub fn refuse(number: u8, kind: u8, position: usize) -> Answer
    ensures { result ≡ answer number kind position }
{
    Answer {
        number,
        kind,
        position,
    }
}

// What the rules of a record find: a number of Rules 4.2 or 0, as the definitions of the rules have it, and how many looks at records it took to say so.
#[derive(Clone, Copy)]
pub struct Found {
    pub number: u8,
    pub looks: usize,
}

// The same of whole lists, and of a table: an answer, and its looks.
#[derive(Clone, Copy)]
pub struct Looked {
    pub answer: Answer,
    pub looks: usize,
}

// Some bytes: where they start and how many they are.
#[derive(Clone, Copy)]
pub struct Region {
    pub at: usize,
    pub len: usize,
}

// Whether a reference counts.
#[derive(Clone, Copy)]
pub enum Need {
    Ignored,
    Optional,
    Required,
}

// What a read of a record gives: its image, references as zero, filled up to 128 bytes.
#[derive(Clone, Copy)]
pub struct Image {
    pub answer: Answer,
    pub used: bool,
    pub len: usize,
    pub bytes: [u8; 128],
}

// What a read of a field gives: its bytes in table order, filled up to 16.
#[derive(Clone, Copy)]
pub struct Field {
    pub answer: Answer,
    pub used: bool,
    pub len: usize,
    pub bytes: [u8; 16],
}

// Where the object of a reference stands in the caller's bytes.
#[derive(Clone, Copy)]
pub struct Place {
    pub answer: Answer,
    pub present: bool,
    pub at: usize,
    pub len: usize,
}

// What a rewrite answers: the number of bytes of the one form, 0 where refused.
#[derive(Clone, Copy)]
pub struct Rewritten {
    pub answer: Answer,
    pub len: usize,
}

// How far a build has come. Turn 0 is the empty state (all fields zero), 2 to 6 wait for a record of that kind, 7 for finish, 8 is finished. `minor` is the
// header minor that the records told so far ask for.
#[derive(Clone, Copy, PartialEq, Eq)]
pub struct State {
    pub turn: u16,
    pub position: u16,
    pub hfi: u8,
    pub ssns: u8,
    pub security: u8,
    pub discovery: u8,
    pub used: usize,
    pub minor: usize,
}

impl State {
    // Nothing is begun.
    pub const EMPTY: State = State {
        turn: 0,
        position: 0,
        hfi: 0,
        ssns: 0,
        security: 0,
        discovery: 0,
        used: 0,
        minor: 0,
    };
}

// What a builder call hands back.
#[derive(Clone, Copy)]
pub struct Step {
    pub answer: Answer,
    pub state: State,
}
