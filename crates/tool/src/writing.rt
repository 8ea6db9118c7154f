// A file written whole or not at all: under a name of its own beside the file's, then renamed.
ghost use Rattle.std.specs.Prelude.{◌≡◌, ◌++◌, ◌+◌, ◌≤◌, length, take};
ghost use Rattle.io.specs.Counts.{IsPrefixLen};

use crate::reason::fail;
use crate::{complain, file_name, name_text};
use std::env::Env;
use std::fs;
use std::fs::{File, Files, OpenFile, OpenOptions};
use std::io::{Error, ErrorKind, Write};

// Room for the longest argument and `.part`. A name that is longer than paths may be is refused where it is used.
const NAME_MAX: usize = 4101;

// A path with an ending behind it; how long both are.
pub fn put_name(path: &[u8], ending: &[u8], name: &mut [u8]) -> usize
    requires { length path.now + length ending.now ≤ length name.old }
    ensures { IsPrefixLen result name.new × (take result name.new ≡ path.now ++ ending.now) }
{
    let n = path.len();
    let end = n + ending.len();
    name[..n].copy_from_slice(path);
    name[n..end].copy_from_slice(ending);
    end
}

fn remove<R: Files>(rt: &R, name: &str) {
    if let Err(e) = fs::remove_file(rt, name) {
        fail(name.as_bytes(), e);
    }
}

// Errors may come as late as when the bytes reach the device. The file is closed behind them, so that it may be removed.
fn fill_open<F: Write + OpenFile + Drop>(mut file: F, content: &[u8]) -> Result<(), Error> {
    file.write_all(content)?;
    file.sync_all()
}

// A file that is there already is left alone: it may be another program's.
fn write_new<R: Files>(rt: &R, name: &str, content: &[u8]) -> bool {
    let opened = OpenOptions::new()
        .write(true)
        .create_new(true)
        .open(rt, name);
    let file = match opened {
        Ok(file) => file,
        Err(e) => {
            fail(name.as_bytes(), e);
            return false;
        }
    };
    match fill_open(file, content) {
        Ok(()) => true,
        Err(e) => {
            fail(name.as_bytes(), e);
            remove(rt, name);
            false
        }
    }
}

fn write_beside<R: Files>(rt: &R, path: &str, content: &[u8]) -> bool
    requires { length path.now ≤ 4096 }
{
    // Beside the file itself, since a rename cannot leave a file system.
    let mut name = [0u8; NAME_MAX];
    let len = put_name(path.as_bytes(), b".part", &mut name);
    let Some(part) = name_text(&name[..len]) else {
        return false;
    };
    if !write_new(rt, part, content) {
        return false;
    }
    if let Err(e) = fs::rename(rt, part, path) {
        fail(path.as_bytes(), e);
        remove(rt, part);
        return false;
    }
    true
}

// Whether the name leads to another.
fn is_link<R: Files>(rt: &R, name: &str) -> bool {
    match fs::symlink_metadata(rt, name) {
        Ok(found) => found.is_symlink(),
        Err(_) => false,
    }
}

// Tells a regular file from a pipe, a terminal or a device such as /dev/null, which keep nothing that `fsync` could wait for. A disk passes.
fn holds_bytes<F: OpenFile>(file: &F) -> bool {
    file.sync_all().is_ok()
}

// A rename puts a file in the place of whatever has the name, of /dev/null and /dev/stdout too.
fn may_take<R: Files>(rt: &R, name: &str) -> bool {
    let path = name.as_bytes();
    if is_link(rt, name) {
        complain(path, b": a link, which is not replaced\n");
        return false;
    }
    let file = match OpenOptions::new().read(true).write(true).open(rt, name) {
        Ok(file) => file,
        Err(e) if e.kind() == ErrorKind::NotFound => return true,
        Err(e) => {
            fail(path, e);
            return false;
        }
    };
    if holds_bytes(&file) {
        return true;
    }
    complain(path, b": no regular file, and not replaced\n");
    false
}

// The file that an argument of the program names; where it is not written, it is as it was, and a line on standard error says why.
pub fn write_file<R: Env + Files>(rt: &R, argument: usize, content: &[u8]) -> bool {
    let mut path = io::buffer();
    let Some(len) = file_name(rt, argument, &mut path) else {
        return false;
    };
    let Some(name) = name_text(&path[..len]) else {
        return false;
    };
    may_take(rt, name) && write_beside(rt, name, content)
}
