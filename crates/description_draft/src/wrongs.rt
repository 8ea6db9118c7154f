// What may be wrong with a description, in words.
ghost use Rattle.std.specs.Prelude.{◌≡◌};
ghost use Rattle.description_draft.specs.Numbered.{wrong_of};

use description_words::Form;
use table::Answer;

#[derive(Clone, Copy)]
pub enum Wrong {
    // Not written as a value of this form is.
    Value(Form),
    NoField,
    NoValue,
    NoSection,
    BeforeSections,
    ToldTwice,
    ToldUnused,
    NotCounted,
    OutOfTurn,
    TooMany,
    // What the builder answers.
    Refused(Answer),
    Incomplete,
}

// What is wrong, and in which line.
#[derive(Clone, Copy)]
pub struct Fault {
    pub line: usize,
    pub wrong: Wrong,
}

impl Wrong {
    // The same as a fault of a line.
    pub fn at(self, line: usize) -> Fault {
        Fault { line, wrong: self }
    }
}

// What is wrong, in the order of the numbers. That of a refusal says nothing of what the builder answered.
static NUMBERED: [Wrong; 19] = [
    Wrong::Value(Form::List),
    Wrong::Value(Form::Number),
    Wrong::Value(Form::Text),
    Wrong::Value(Form::Digits),
    Wrong::Value(Form::Interface),
    Wrong::Value(Form::Function),
    Wrong::Value(Form::Address),
    Wrong::Value(Form::List),
    Wrong::NoField,
    Wrong::NoValue,
    Wrong::NoSection,
    Wrong::BeforeSections,
    Wrong::ToldTwice,
    Wrong::ToldUnused,
    Wrong::NotCounted,
    Wrong::OutOfTurn,
    Wrong::TooMany,
    Wrong::Refused(Answer {
        number: 0,
        kind: 0,
        position: 0,
    }),
    Wrong::Incomplete,
];

// Who has the number of what is wrong gets its words too. A number that is none of theirs has the words of a list.
impl From<u8> for Wrong {
    ghost from_gives = { λ number wrong. wrong ≡ wrong_of number };

    fn from(number: u8) -> Wrong
        ensures { result ≡ wrong_of number }
    {
        if 19 <= number {
            return Wrong::Value(Form::List);
        }
        NUMBERED[number as usize]
    }
}

// Of a value, what it should have been.
fn value_words(form: Form) -> &'static [u8] {
    match form {
        Form::Number => b"no number, as 4420 or 0x1144, or too great for its field",
        Form::Text => b"too long for its field or a table, or a backslash without xHH behind it",
        Form::Digits => {
            b"not hexadecimal digits, two for each byte, or not as many as there must be"
        }
        Form::Interface => b"no address of an interface, as 52:54:00:a1:b2:01",
        Form::Function => b"no function of a device, as 0000:1c:00.0",
        Form::Address => b"no Internet address, as 192.168.101.30 or fe80::1",
        Form::List => b"no list of numbers up to 255, as 2,3",
    }
}

// As they stand behind the line's number.
fn words(wrong: Wrong) -> &'static [u8] {
    match wrong {
        Wrong::Value(form) => value_words(form),
        Wrong::NoField => b"no such field in this section",
        Wrong::NoValue => b"no value",
        Wrong::NoSection => b"no such section",
        Wrong::BeforeSections => b"a field before the first section",
        Wrong::ToldTwice => b"told before in this section",
        Wrong::ToldUnused => b"an unused position has no fields",
        Wrong::NotCounted => b"does not count with the flags or the version in this section",
        Wrong::OutOfTurn => {
            b"out of turn: header and host, one each, then hfi, subsystem, security and discovery"
        }
        Wrong::TooMany => b"more than 255 sections of this kind",
        Wrong::Refused(_) => b"refused",
        Wrong::Incomplete => b"the end, and no header or no host",
    }
}

// The words to an open file, without a line's end.
pub fn write_words(fd: i32, wrong: Wrong) -> bool {
    io::write_all(fd, words(wrong))
}
