// Two records whole: what they have themselves, and behind that the heap record that they name, which in every kind stands last.
ghost use Rattle.std.specs.Prelude.{◌≡◌, ◌++◌, ◌+◌, ◌≤◌, ◌<◌, length, take, eqb};
ghost use Rattle.reader.specs.Accepted.{Accepted};
ghost use Rattle.reads_seats.specs.Told.{image_of};
ghost use Rattle.changes.specs.Changes.{texts_of};
ghost use Rattle.changes_records.specs.Told.{both_there, held_lines, level_lines, pair_lines, whole_lines};

use crate::records::{own_lines, put_text};
use changes::lines::{only_line, used_line};
use reads::records::record_in;
use table::{Extended, Hfi, HfiExtended, Info, Ssns};

// How many bytes of the buffer are taken, and whether both tables have the heap record.
#[derive(Clone, Copy)]
pub struct Level {
    pub at: usize,
    pub both: bool,
}

fn is_there(t: &[u8], kind: u8, position: usize) -> bool
    requires { Accepted t.now }
    ensures { result ≡ eqb (image_of t.now kind position).answer.number 0 }
{
    let read = record_in(t, kind, position);
    let answer = read.answer;
    answer.number == 0
}

fn level_of(at: usize, both: bool) -> Level
    ensures { (result.at ≡ at) × (result.both ≡ both) }
{
    Level { at, both }
}

// The heap record of a kind, behind the first `from` bytes of `out`, without what it names in its turn.
fn held_lines(t: &[u8], u: &[u8], kind: u8, position: usize, out: &mut [u8], from: usize) -> Level
    requires { Accepted t.now × Accepted u.now × (position < 65536) × (from + 16384 ≤ length out.old) }
    ensures { (result.both ≡ both_there t.now u.now kind position) × (from ≤ result.at) × (result.at ≤ from + 16384) × (take result.at out.new ≡ take from out.old ++ texts_of (level_lines t.now u.now kind position)) × (length out.new ≡ length out.old) }
{
    let one = is_there(t, kind, position);
    let other = is_there(u, kind, position);
    if one {
        if other {
            return level_of(own_lines(t, u, kind, position, out, from), true);
        }
        return level_of(put_text(out, from, &only_line(kind, position, 1)), false);
    }
    if other {
        return level_of(put_text(out, from, &only_line(kind, position, 2)), false);
    }
    level_of(from, false)
}

// The info of two HFIs, and the HFI extended info that it may name.
fn info_lines(t: &[u8], u: &[u8], position: usize, out: &mut [u8], from: usize) -> usize
    requires { Accepted t.now × Accepted u.now × (position < 65536) × (from + 32768 ≤ length out.old) }
    ensures { (result ≤ from + 32768) × (take result out.new ≡ take from out.old ++ texts_of (held_lines t.now u.now 2 3 position)) × (length out.new ≡ length out.old) }
{
    let info = held_lines(t, u, Info::ID, position, out, from);
    let at = info.at;
    if info.both {
        let extended = held_lines(t, u, HfiExtended::ID, position, out, at);
        return extended.at;
    }
    at
}

// All of two records that are there, from the buffer's first byte on.
pub fn whole_lines(t: &[u8], u: &[u8], kind: u8, position: usize, out: &mut [u8]) -> usize
    requires { Accepted t.now × Accepted u.now × (kind ≤ 6) × (position < 65536) × (65536 ≤ length out.old) × ((image_of t.now kind position).answer.number ≡ 0) × ((image_of u.now kind position).answer.number ≡ 0) }
    ensures { (result ≤ 65536) × (take result out.new ≡ texts_of (whole_lines t.now u.now kind position)) × (length out.new ≡ length out.old) }
{
    let at = own_lines(t, u, kind, position, out, 0);
    if kind == Hfi::ID {
        return info_lines(t, u, position, out, at);
    }
    if kind == Ssns::ID {
        let extended = held_lines(t, u, Extended::ID, position, out, at);
        return extended.at;
    }
    at
}

// Two records that are there, used or not.
pub fn pair_lines(t: &[u8], u: &[u8], kind: u8, position: usize, out: &mut [u8]) -> usize
    requires { Accepted t.now × Accepted u.now × (kind ≤ 6) × (position < 65536) × (65536 ≤ length out.old) × ((image_of t.now kind position).answer.number ≡ 0) × ((image_of u.now kind position).answer.number ≡ 0) }
    ensures { (result ≤ 65536) × (take result out.new ≡ texts_of (pair_lines t.now u.now kind position)) × (length out.new ≡ length out.old) }
{
    let x = record_in(t, kind, position);
    let y = record_in(u, kind, position);
    if x.used {
        if y.used {
            return whole_lines(t, u, kind, position, out);
        }
        return put_text(out, 0, &used_line(kind, position, 1));
    }
    if y.used {
        return put_text(out, 0, &used_line(kind, position, 2));
    }
    0
}
