// `nbft_show [--json] [--all] [FILE]..`: what tables say, for people or as JSON. Of a table that is refused, number, kind and position of the first fault,
// and the words.
#![tactic(auto)]

mod files; // tables from files, folders and standard input
mod options; // what is asked for

use files::{print_end, print_start, show_name};
use options::{Asked, Named, is_file, read_options};
use std::env::Env;
use std::fs::Files;

// Where Linux keeps the tables that firmware handed over.
fn show_default<R: Files + Input>(rt: &R, a: Asked) -> bool {
    show_name(rt, b"/sys/firmware/acpi/tables", a, true)
}

fn show_argument<R: Env + Files + Input>(rt: &R, argument: usize, a: Asked, none: bool) -> bool {
    if !is_file(rt, argument) {
        return none;
    }
    let mut path = io::buffer();
    let Some(length) = tool::file_name(rt, argument, &mut path) else {
        return none;
    };
    show_name(rt, &path[..length], a, none)
}

fn show_arguments<R: Env + Files + Input>(rt: &R, a: Asked, count: usize) -> bool {
    let mut none = true;
    for argument in 1..count {
        none = show_argument(rt, argument, a, none);
    }
    none
}

fn show_all<R: Env + Files + Input>(rt: &R, a: Asked, count: usize) -> bool {
    if a.files == Named::Nothing {
        return show_default(rt, a);
    }
    show_arguments(rt, a, count)
}

fn main(rt: HostRuntime) {
    if tool::helped(
        &rt,
        b"usage: nbft_show [--json] [--all] [FILE]...\n\
          Shows what NVMe boot firmware tables say.\n\
          FILE is a file, a folder (its NBFT and NBFT1 to NBFT9 are shown) or - for standard input; without one,\n\
          /sys/firmware/acpi/tables.\n\
          --json  as JSON: a list with an object for each table, with the keys of `nvme nbft show -o json`\n\
          --all   also what is zero or absent, and raw values\n",
    ) {
        return;
    }
    let count = tool::argument_count(&rt);
    let Some(a) = read_options(&rt, count) else {
        tool::complain(b"usage: nbft_show [--json] [--all] [FILE]...", b"\n");
        return;
    };
    print_start(a);
    print_end(a, show_all(&rt, a, count));
}
