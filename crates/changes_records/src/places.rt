// The places of two tables in order, and the lines at each: the counts, the header, the host, then list by list the positions that one of them has.
ghost use Rattle.std.specs.Prelude.{◌≡◌, ◌≤◌, ◌<◌, length, take};
ghost use Rattle.reader.specs.Accepted.{Accepted};
ghost use Rattle.changes.specs.Changes.{texts_of};
ghost use Rattle.changes_records.specs.Told.{most_of, position_lines};
ghost use Rattle.changes_records.specs.Walk.{walk, begun, left, lines_at, next_of};

use crate::records::{own_lines, put_text};
use crate::wholes::{pair_lines, whole_lines};
use changes::lines::only_line;
use reads_by_seat::counts::count_of;
use table::{Control, Header, Host};

// Past the last list.
pub const END: u8 = 7;

// Where a walk stands: at the counts (0), the header (1), the host (2), or in the list of a kind, before the position behind so many.
#[derive(Clone, Copy)]
pub struct Walk {
    pub list: u8,
    pub position: usize,
}

fn walk_of(list: u8, position: usize) -> Walk
    ensures { result ≡ walk list position }
{
    Walk { list, position }
}

pub fn first() -> Walk
    ensures { result ≡ begun }
{
    walk_of(0, 0)
}

// How many positions of a list one of the tables has.
fn most_of(t: &[u8], u: &[u8], list: u8) -> usize
    requires { Accepted t.now × Accepted u.now }
    ensures { (result ≡ most_of t.now u.now list) × (result < 256) }
{
    let one = count_of(t, list);
    let other = count_of(u, list);
    if one < other {
        return other;
    }
    one
}

// The place behind one that is not the last; the bounds let a caller see that a walk ends.
pub fn next(t: &[u8], u: &[u8], w: Walk) -> Walk
    requires { Accepted t.now × Accepted u.now × (w.list < 7) × (w.position < 256) }
    ensures { (result ≡ next_of t.now u.now w) × (result.list ≤ 7) × (result.position < 256) × (left result < left w) }
{
    if w.list < 3 {
        return walk_of(w.list + 1, 0);
    }
    if w.position < most_of(t, u, w.list) {
        return walk_of(w.list, w.position + 1);
    }
    walk_of(w.list + 1, 0)
}

// A position that one of the tables has, used or not.
fn position_lines(t: &[u8], u: &[u8], kind: u8, position: usize, out: &mut [u8]) -> usize
    requires { Accepted t.now × Accepted u.now × (3 ≤ kind) × (kind ≤ 6) × (1 ≤ position) × (position < 256) × (65536 ≤ length out.old) }
    ensures { (result ≤ 65536) × (take result out.new ≡ texts_of (position_lines t.now u.now kind position)) × (length out.new ≡ length out.old) }
{
    if position <= count_of(t, kind) {
        if position <= count_of(u, kind) {
            return pair_lines(t, u, kind, position, out);
        }
        return put_text(out, 0, &only_line(kind, position, 1));
    }
    put_text(out, 0, &only_line(kind, position, 2))
}

// What stands at a place, from the buffer's first byte on.
pub fn lines_at(t: &[u8], u: &[u8], w: Walk, out: &mut [u8]) -> usize
    requires { Accepted t.now × Accepted u.now × (w.list < 7) × (65536 ≤ length out.old) }
    ensures { (result ≤ 65536) × (take result out.new ≡ texts_of (lines_at t.now u.now w)) × (length out.new ≡ length out.old) }
{
    let list = w.list;
    match list {
        0 => own_lines(t, u, Control::ID, 0, out, 0),
        1 => whole_lines(t, u, Header::ID, 0, out),
        2 => pair_lines(t, u, Host::ID, 0, out),
        _ => listed_lines(t, u, w, out),
    }
}

// Of a walk in a list.
fn listed_lines(t: &[u8], u: &[u8], w: Walk, out: &mut [u8]) -> usize
    requires { Accepted t.now × Accepted u.now × (3 ≤ w.list) × (w.list < 7) × (65536 ≤ length out.old) }
    ensures { (result ≤ 65536) × (take result out.new ≡ texts_of (lines_at t.now u.now w)) × (length out.new ≡ length out.old) }
{
    if w.position < most_of(t, u, w.list) {
        return position_lines(t, u, w.list, w.position + 1, out);
    }
    0
}
