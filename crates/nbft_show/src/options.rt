// What is asked for: options anywhere among the files, and whether files are named.

use std::env::Env;

// How many files are named.
#[derive(Clone, Copy, PartialEq, Eq)]
pub enum Named {
    Nothing,
    One,
    Several,
}

#[derive(Clone, Copy)]
pub struct Asked {
    pub json: bool,
    pub all: bool,
    pub files: Named,
}

// An argument: a file, or one of the two options.
#[derive(Clone, Copy, PartialEq, Eq)]
enum Word {
    File,
    Json,
    All,
}

// A dash alone is standard input.
fn is_option(word: &[u8]) -> bool {
    2 <= word.len() && word[0] == b'-'
}

// What an argument is, unless it is an option that there is not.
fn word_at<R: Env>(rt: &R, argument: usize) -> Option<Word> {
    if tool::argument_is(rt, argument, b"--json") {
        return Some(Word::Json);
    }
    if tool::argument_is(rt, argument, b"--all") {
        return Some(Word::All);
    }
    let mut word = io::buffer();
    let n = tool::argument_bytes(rt, argument, &mut word);
    if is_option(&word[..n]) {
        return None;
    }
    Some(Word::File)
}

pub fn is_file<R: Env>(rt: &R, argument: usize) -> bool {
    word_at(rt, argument) == Some(Word::File)
}

// With one file more.
fn one_more(files: Named) -> Named {
    match files {
        Named::Nothing => Named::One,
        _ => Named::Several,
    }
}

// With one argument more.
fn with_word(a: Asked, word: Word) -> Asked {
    match word {
        Word::File => Asked {
            files: one_more(a.files),
            ..a
        },
        Word::Json => Asked { json: true, ..a },
        Word::All => Asked { all: true, ..a },
    }
}

// With several files, as a folder may have.
pub fn with_several(a: Asked) -> Asked {
    Asked {
        files: Named::Several,
        ..a
    }
}

// What the arguments ask for, unless one of them is an option that there is not.
pub fn read_options<R: Env>(rt: &R, count: usize) -> Option<Asked> {
    let mut a = Asked {
        json: false,
        all: false,
        files: Named::Nothing,
    };
    for argument in 1..count {
        a = with_word(a, word_at(rt, argument)?);
    }
    Some(a)
}
