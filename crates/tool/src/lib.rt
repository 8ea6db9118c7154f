// What every tool does: read a file whole, write one whole or not at all, print texts, and say what a check answers.
#![tactic(auto)]

mod reason; // why a call failed, in words
pub mod writing; // a file written

ghost use Rattle.std.specs.Prelude.{◌≡◌, IfSome, take};
ghost use Rattle.io.specs.Counts.{IsPrefixLen};
ghost use Rattle.text.specs.Numerals.{numbers_line};
ghost use Rattle.text_answers.specs.Words.{fault_line};

use reason::fail;
use std::env::{Env, FillError};
use std::fs::{File, Files};
use std::io::{Error, ErrorKind, Input, Read};
use table::Answer;
use text::Text;
pub use writing::{put_name, write_file};

// Standard output and standard error.
const STDOUT_FILENO: i32 = 1;

pub const STDERR_FILENO: i32 = 2;

// A table has at most 65,536 bytes, and a file may go on behind its table.
pub const MOST: usize = 70000;

pub fn complain(what: &[u8], why: &[u8]) {
    io::write_all(STDERR_FILENO, what);
    io::write_all(STDERR_FILENO, why);
}

// Whether the file ends where reading stopped. The count of bytes alone does not tell an end from
// a failed read or a full buffer; one more read does.
fn ends_here<R: Read>(file: &mut R, path: &[u8], most: usize) -> bool {
    let mut next = [0u8; 1];
    match file.read(&mut next) {
        Err(e) => {
            fail(path, e);
            false
        }
        Ok(0) => true,
        Ok(_) => {
            complain(path, b": more bytes than the ");
            io::print_decimal(STDERR_FILENO, most as u64);
            io::write_all(STDERR_FILENO, b" that are read\n");
            false
        }
    }
}

// Reads until the buffer is full, the input ends or a read fails. The loop is by hand: a read may return fewer bytes than there is room for, and
// `read_exact` does not say how many came before the end.
fn read_full<R: Read>(file: &mut R, into: &mut [u8]) -> usize
    ensures { IsPrefixLen result into.new }
{
    let mut done = 0;
    while done < into.len() {
        match file.read(&mut into[done..]) {
            Ok(0) | Err(_) => break,
            Ok(n) => done += n,
        }
    }
    done
}

// The length of an open file, if it is read whole.
fn read_open<R: Read>(file: &mut R, path: &[u8], into: &mut [u8]) -> Option<usize>
    ensures { IfSome result (λ len. IsPrefixLen len into.new) }
{
    let len = read_full(file, into);
    if ends_here(file, path, into.len()) {
        Some(len)
    } else {
        None
    }
}

// A name as text, which is what files are opened by; where it is none, a line on standard error says so.
fn name_text(path: &[u8]) -> Option<&str>
    ensures { IfSome result (λ name. name.now ≡ path.now) }
{
    match std::str::from_utf8(path) {
        Ok(name) => Some(name),
        Err(_) => {
            complain(path, b": a name that is no UTF-8\n");
            None
        }
    }
}

// The file with this name; its length, or none and a line on standard error that says why it is not read whole.
pub fn read_named<R: Files>(rt: &R, path: &[u8], into: &mut [u8]) -> Option<usize>
    ensures { IfSome result (λ len. IsPrefixLen len into.new) }
{
    let name = name_text(path)?;
    match File::open(rt, name) {
        Ok(mut file) => read_open(&mut file, path, into),
        Err(e) => {
            fail(path, e);
            None
        }
    }
}

// Standard input, in the same way.
pub fn read_input<R: Input>(rt: &R, into: &mut [u8]) -> Option<usize>
    ensures { IfSome result (λ len. IsPrefixLen len into.new) }
{
    let mut input = rt.reader();
    read_open(&mut input, b"standard input", into)
}

// Whether the name is that of a folder: it can be opened to read, but not read.
pub fn is_folder<R: Files>(rt: &R, path: &[u8]) -> bool {
    let Ok(name) = std::str::from_utf8(path) else {
        return false;
    };
    let Ok(mut file) = File::open(rt, name) else {
        return false;
    };
    let mut next = [0u8; 1];
    match file.read(&mut next) {
        Ok(_) => false,
        Err(e) => e.kind() == ErrorKind::IsADirectory,
    }
}

// Whether there is something with this name, readable or not.
pub fn is_there<R: Files>(rt: &R, path: &[u8]) -> bool {
    let Ok(name) = std::str::from_utf8(path) else {
        return true;
    };
    match File::open(rt, name) {
        Ok(_) => true,
        Err(e) => e.kind() != ErrorKind::NotFound,
    }
}

// The system's numbers for what is no argument, and for a name that is too long.
const EINVAL: i32 = 22;

const ENAMETOOLONG: i32 = 36;

// Why an argument is not had, as the system's error.
fn error_of(e: FillError) -> Error {
    match e {
        FillError::NotPresent => Error::from_raw_os_error(EINVAL),
        FillError::TooLong => Error::from_raw_os_error(ENAMETOOLONG),
    }
}

// An argument of the program; nothing where there is none, or where it is longer than what is lent. The length is no `Option`, since every caller takes
// an argument that is not had for an empty one.
pub fn argument_bytes<R: Env>(rt: &R, argument: usize, into: &mut [u8]) -> usize
    ensures { IsPrefixLen result into.new }
{
    rt.arg(argument, into).unwrap_or(0)
}

// The name of a file that an argument of the program is; where it is not had, a line on standard error says why.
pub fn file_name<R: Env>(rt: &R, argument: usize, into: &mut [u8]) -> Option<usize>
    ensures { IfSome result (λ len. IsPrefixLen len into.new) }
{
    match rt.arg(argument, into) {
        Ok(len) => Some(len),
        Err(e) => {
            fail(b"the file's name", error_of(e));
            None
        }
    }
}

// How many arguments there are, the program's name among them.
pub fn argument_count<R: Env>(rt: &R) -> usize {
    for i in 0..usize::MAX {
        if let Err(FillError::NotPresent) = rt.arg(i, &mut []) {
            return i;
        }
    }
    usize::MAX
}

// The file that an argument of the program names.
pub fn read_file<R: Env + Files>(rt: &R, argument: usize, into: &mut [u8]) -> Option<usize>
    ensures { IfSome result (λ len. IsPrefixLen len into.new) }
{
    let mut path = io::buffer();
    let len = file_name(rt, argument, &mut path)?;
    read_named(rt, &path[..len], into)
}

pub fn argument_is<R: Env>(rt: &R, argument: usize, word: &[u8]) -> bool {
    let mut given = io::buffer();
    let n = argument_bytes(rt, argument, &mut given);
    &given[..n] == word
}

// `--help` alone: the usage on standard output, where it was asked for.
pub fn helped<R: Env>(rt: &R, usage: &[u8]) -> bool {
    let asked = argument_count(rt) == 2 && argument_is(rt, 1, b"--help");
    if asked {
        io::write_all(STDOUT_FILENO, usage);
    }
    asked
}

pub fn print(text: &Text) {
    io::write_all(STDOUT_FILENO, text.as_bytes());
}

pub fn print_bytes(s: &[u8]) {
    io::write_all(STDOUT_FILENO, s);
}

pub fn answer_line(a: Answer) -> Text
    ensures { result ≡ numbers_line a.number a.kind a.position }
{
    text::numbers_line(u64::from(a.number), u64::from(a.kind), a.position as u64)
}

pub fn answer_words(a: Answer) -> Text
    ensures { result ≡ fault_line a.number a.kind a.position }
{
    text_answers::fault_line(a.number, a.kind, a.position as u64)
}

// Two lines: the numbers for programs, the words for people.
pub fn print_answer(a: Answer) {
    print(&answer_line(a));
    print(&answer_words(a));
}
