// Why a call of the system failed, in its words and no more.
ghost use Rattle.std.specs.Prelude.{◌≤◌};

use crate::complain;
use std::fmt;
use std::fmt::Write;
use std::io::Error;

// What an error prints, as far as there is room.
#[derive(Drop)]
struct Words {
    len: usize,
    bytes: [u8; 128],
}

impl fmt::Write for Words {
    fn write_str(&mut self, s: &str) -> fmt::Result {
        for b in s.as_bytes() {
            if self.len < 128 {
                self.bytes[self.len] = *b;
                self.len += 1;
            }
        }
        Ok(())
    }
}

// How long the words are without the number behind them, as in ` (os error 2)`.
fn bare_len(len: usize, e: Error) -> usize
    ensures { result ≤ len }
{
    let Some(code) = e.raw_os_error() else {
        return len;
    };
    let number = text::decimal(u64::from(code.unsigned_abs()));
    len.saturating_sub(12).saturating_sub(number.len())
}

// A line on standard error: what failed, and why.
pub fn fail(what: &[u8], e: Error) {
    let mut words = Words {
        len: 0,
        bytes: [0; 128],
    };
    let _ = write!(words, "{e}").is_ok();
    let n = bare_len(words.len, e);
    let bytes = &words.bytes[..];
    let end = n.min(bytes.len());
    complain(what, b": ");
    complain(&bytes[..end], b"\n");
}
