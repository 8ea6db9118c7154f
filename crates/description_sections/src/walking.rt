// From line to line: what is built so far, and the section that is being read.
use crate::telling::{dropped_line, tell};
use bytes_front::Counts;
use description_draft::Draft;
use description_draft::lines::{section_of, split_word, trimmed};
use description_draft::wrongs::{Fault, Wrong};
use table::State;

// The line that was read last; the builder's state; and the section that is being read, behind the first line of one.
#[derive(Clone, Copy)]
pub struct Walk {
    pub line: usize,
    pub state: State,
    pub draft: Option<Draft>,
}

impl Walk {
    // Before the first line: the builder is in its empty state.
    fn start() -> Walk {
        Walk {
            line: 1,
            state: State::EMPTY,
            draft: None,
        }
    }

    // The section that was read is told to the builder.
    pub fn close(&mut self, c: Counts, room: &[u8], out: &mut [u8]) -> Result<(), Fault> {
        let Some(draft) = &self.draft else {
            return Ok(());
        };
        if let Some(line) = dropped_line(draft) {
            return Err(Wrong::NotCounted.at(line));
        }
        let line = draft.line;
        self.state = tell(out, self.state, draft, c, room).map_err(|wrong| wrong.at(line))?;
        Ok(())
    }

    // A section begins. Which kind's turn it is, the builder's state says.
    fn open(&mut self, line: &[u8]) -> Result<(), Wrong> {
        let section = section_of(line).ok_or(Wrong::NoSection)?;
        if self.state.turn != u16::from(section.kind) {
            return Err(Wrong::OutOfTurn);
        }
        self.draft = Some(Draft::opened(section, self.line));
        Ok(())
    }

    // A word and its value, for the section that is being read.
    fn tell_line(&mut self, line: &[u8], room: &mut [u8]) -> Result<(), Wrong> {
        let number = self.line;
        let draft = self.draft.as_mut().ok_or(Wrong::BeforeSections)?;
        if !draft.used {
            return Err(Wrong::ToldUnused);
        }
        let (word, value) = split_word(line);
        draft.tell(word, trimmed(value), number, room)
    }

    // One line, without the blanks around it.
    fn read(
        &mut self,
        line: &[u8],
        c: Counts,
        room: &mut [u8],
        out: &mut [u8],
    ) -> Result<(), Fault> {
        let number = self.line;
        let told = match line {
            [] | [b'#', ..] => Ok(()),
            [b'[', ..] => {
                self.close(c, room, out)?;
                self.open(line)
            }
            _ => self.tell_line(line, room),
        };
        told.map_err(|wrong| wrong.at(number))
    }
}

// All lines, up to one that is wrong. The last section is still to be told. Behind the end of the last line there is none.
pub fn walked(text: &[u8], c: Counts, room: &mut [u8], out: &mut [u8]) -> Result<Walk, Fault> {
    let mut walk = Walk::start();
    let lines = text.strip_suffix(b"\n").unwrap_or(text);
    for (number, line) in (1..).zip(lines.split(|b| *b == b'\n')) {
        walk.line = number;
        walk.read(trimmed(line), c, room, out)?;
    }
    Ok(walk)
}
