// Tables from files, folders and standard input, shown one behind the other. Each call is told whether none has been shown so far, and tells the next.
ghost use Rattle.std.specs.Prelude.{◌+◌, ◌≤◌, length};
ghost use Rattle.io.specs.Counts.{IsPrefixLen};

use crate::options::{Asked, Named, with_several};
use show::bytes::{Style, put_bytes};
use show::json::print_file;
use show::people::print_people;
use std::fs::Files;
use tool::{MOST, print_bytes, put_name};

// The longest name of a file in a folder: the longest argument, `/NBFT` and a digit.
const NAME_MAX: usize = 4102;

pub fn print_start(a: Asked) {
    if a.json {
        print_bytes(b"[");
    }
}

// The end of the list in JSON, on a line of its own unless the list is empty.
pub fn print_end(a: Asked, none: bool) {
    if !a.json {
        return;
    }
    if !none {
        print_bytes(b"\n");
    }
    print_bytes(b"]\n");
}

fn show_as_json(name: &[u8], t: &[u8], none: bool) {
    if !none {
        print_bytes(b",");
    }
    print_file(name, t);
}

// Where there may be several tables each has its name above it.
fn show_for_people(name: &[u8], t: &[u8], a: Asked, none: bool) {
    if !none {
        print_bytes(b"\n");
    }
    if a.files == Named::Several {
        put_bytes(name, Style::Characters, true);
        print_bytes(b":\n\n");
    }
    print_people(t, a.all);
}

fn show_table(name: &[u8], t: &[u8], a: Asked, none: bool) -> bool {
    if a.json {
        show_as_json(name, t, none);
        return false;
    }
    show_for_people(name, t, a, none);
    false
}

fn show_input<R: Input>(rt: &R, a: Asked, none: bool) -> bool {
    let mut table = [0u8; MOST];
    if let Some(n) = tool::read_input(rt, &mut table) {
        return show_table(b"-", &table[..n], a, none);
    }
    none
}

fn show_file<R: Files>(rt: &R, path: &[u8], a: Asked, none: bool) -> bool {
    let mut table = [0u8; MOST];
    if let Some(n) = tool::read_named(rt, path, &mut table) {
        return show_table(path, &table[..n], a, none);
    }
    none
}

// The length of a folder's name without the slash behind it.
fn bare_len(path: &[u8]) -> usize
    ensures { result ≤ length path.now }
{
    match path {
        [front @ .., b'/'] => front.len(),
        _ => path.len(),
    }
}

// The name of table `k` in a folder: NBFT, or that and a digit.
fn put_table_name(path: &[u8], k: u8, name: &mut [u8]) -> usize
    requires { (length path.now + 6 ≤ length name.old) × (k ≤ 9) }
    ensures { IsPrefixLen result name.new }
{
    let ending = [b'/', b'N', b'B', b'F', b'T', b'0' + k];
    if k == 0 {
        return put_name(path, &ending[..5], name);
    }
    put_name(path, &ending, name)
}

// Table `k` of a folder, if it is there; then whether none has been shown so far.
fn show_in_folder<R: Files>(rt: &R, path: &[u8], k: u8, a: Asked, none: bool) -> Option<bool>
    requires { (length path.now ≤ 4096) × (k ≤ 9) }
{
    let mut name = [0u8; NAME_MAX];
    let n = put_table_name(path, k, &mut name);
    if tool::is_there(rt, &name[..n]) {
        return Some(show_file(rt, &name[..n], a, none));
    }
    None
}

// NBFT and NBFT1 to NBFT9 of a folder; one without any is complained of.
fn show_folder<R: Files>(rt: &R, path: &[u8], a: Asked, none: bool) -> bool
    requires { length path.now ≤ 4096 }
{
    let mut none_shown = none;
    let mut met = false;
    for k in 0..=9 {
        if let Some(after) = show_in_folder(rt, path, k, a, none_shown) {
            none_shown = after;
            met = true;
        }
    }
    if !met {
        tool::complain(path, b": no NBFT, NBFT1 .. NBFT9 in this folder\n");
    }
    none_shown
}

// A file, a folder, or standard input.
pub fn show_name<R: Files + Input>(rt: &R, path: &[u8], a: Asked, none: bool) -> bool
    requires { length path.now ≤ 4096 }
{
    if path == b"-".as_slice() {
        return show_input(rt, a, none);
    }
    if tool::is_folder(rt, path) {
        let bare = bare_len(path);
        return show_folder(rt, &path[0..bare], with_several(a), none);
    }
    show_file(rt, path, a, none)
}
