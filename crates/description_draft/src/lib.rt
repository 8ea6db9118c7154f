// A section as far as it is read: its bytes, its objects in the lent room, and the line that told each, so that a fault can be named by its line.
#![tactic(auto)]

pub mod lines; // lines, words and sections
pub mod wrongs; // what may be wrong with a description

ghost use Rattle.std.specs.Prelude.{◌≡◌, ◌<◌, ◌≤◌, length, IfSome, IfErr};
ghost use Rattle.description_words.specs.Placed.{Placed};

use crate::lines::Section;
use crate::wrongs::Wrong;
use description_lists::addresses::address_into;
use description_lists::{INTERFACE, LISTED, parts_into};
use description_values::numbers::{function_into, number_into};
use description_values::strings::string_into;
use description_words::{Form, INNER, Place, place_of};
use table::Hfi;

// Where an object begins and ends in the room that is lent for all of a section.
#[derive(Clone, Copy)]
pub struct Object {
    pub start: usize,
    pub end: usize,
}

// Its first line; the bytes of its record and, from 128 on, of the heap record that this names, and from 32 on of the HFI extended info; the line that
// told each field or object; the objects, and how much of the room they take.
#[derive(Clone, Copy)]
pub struct Draft {
    pub kind: u8,
    pub used: bool,
    pub line: usize,
    pub fields: [u8; 256],
    pub lines: [Option<usize>; 256],
    pub objects: [Object; 6],
    pub taken: usize,
}

// What fields say that are not told: the version of an HFI's transport info is 1, all else zero.
fn untold(kind: u8) -> [u8; 256] {
    let mut fields = [0; 256];
    if kind == Hfi::ID {
        fields[INNER + 3] = 1;
    }
    fields
}

// A value written in a form; how many bytes it fills.
fn value_into(form: Form, value: &[u8], into: &mut [u8]) -> Option<usize>
    ensures { IfSome result (λ n. n ≤ length into.old) }
{
    match form {
        Form::Number => number_into(value, into),
        Form::Text => string_into(value, false, into),
        Form::Digits => string_into(value, true, into),
        Form::Interface => parts_into(value, INTERFACE, into),
        Form::Function => function_into(value, into),
        Form::Address => address_into(value, into),
        Form::List => parts_into(value, LISTED, into),
    }
}

impl Draft {
    // A section that a line begins.
    pub fn opened(section: Section, line: usize) -> Draft {
        Draft {
            kind: section.kind,
            used: section.used,
            line,
            fields: untold(section.kind),
            lines: [None; 256],
            objects: [Object { start: 0, end: 0 }; 6],
            taken: 0,
        }
    }

    // A value fills its field; a text alone may leave the end zero. It is read into a cell, so that a wrong one leaves the draft as it was.
    fn tell_field(&mut self, place: Place, value: &[u8]) -> Result<(), Wrong>
        requires { Placed place }
        ensures { IfErr result (λ _. self.new ≡ self.old) }
    {
        let Place {
            form,
            at,
            width,
            ..
        } = place;
        let mut cell = [0; 16];
        match value_into(form, value, &mut cell[..width]) {
            Some(len) if len == width || form == Form::Text => {
                self.fields[at..at + width].copy_from_slice(&cell[..width]);
                Ok(())
            }
            _ => Err(Wrong::Value(form)),
        }
    }

    // It goes behind the objects that were told before, if the room has place for it.
    fn tell_object(&mut self, place: Place, value: &[u8], room: &mut [u8]) -> Result<(), Wrong>
        requires { Placed place }
        ensures { IfErr result (λ _. self.new ≡ self.old) }
    {
        let wrong = Wrong::Value(place.form);
        let start = self.taken;
        let free = room.get_mut(start..).ok_or(wrong)?;
        let end = start + value_into(place.form, value, free).ok_or(wrong)?;
        self.objects[place.slot] = Object { start, end };
        self.taken = end;
        Ok(())
    }

    // One line more. A wrong one says nothing: the draft is as it was.
    pub fn tell(
        &mut self,
        word: &[u8],
        value: &[u8],
        line: usize,
        room: &mut [u8],
    ) -> Result<(), Wrong>
        ensures { IfErr result (λ _. self.new ≡ self.old) }
    {
        let place = place_of(self.kind, word).ok_or(Wrong::NoField)?;
        if value.is_empty() {
            return Err(Wrong::NoValue);
        }
        if self.lines[place.at].is_some() {
            return Err(Wrong::ToldTwice);
        }
        if place.width == 0 {
            self.tell_object(place, value, room)?;
        } else {
            self.tell_field(place, value)?;
        }
        self.lines[place.at] = Some(line);
        Ok(())
    }

    // What an object says: the part of the room that it took.
    pub fn object<'a>(&self, slot: usize, room: &'a [u8]) -> &'a [u8]
        requires { slot < 6 }
    {
        let Object { start, end } = self.objects[slot];
        room.get(start..end).unwrap_or_default()
    }
}
