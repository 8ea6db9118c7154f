// Lines, words and sections of a text: where each begins and ends, without the blanks around it.
use table::{Discovery, Header, Hfi, Host, Security, Ssns};

// A section's kind, and whether the position is used.
#[derive(Clone, Copy)]
pub struct Section {
    pub kind: u8,
    pub used: bool,
}

// A line's end is none: lines are split at it.
fn is_blank(b: &u8) -> bool {
    matches!(*b, b' ' | b'\t' | b'\r')
}

// The first word, and the rest of the line behind it.
pub fn split_word(line: &[u8]) -> (&[u8], &[u8]) {
    let end = line.iter().position(|b| is_blank(b)).unwrap_or(line.len());
    line.split_at(end)
}

// Without the blanks before and behind.
pub fn trimmed(text: &[u8]) -> &[u8] {
    let from = text.iter().position(|b| !is_blank(b)).unwrap_or(text.len());
    let text = &text[from..];
    match text.iter().rposition(|b| !is_blank(b)) {
        Some(last) => &text[..last + 1],
        None => &[],
    }
}

// The section that a line begins.
pub fn section_of(line: &[u8]) -> Option<Section> {
    let (kind, used) = match line {
        b"[header]" => (Header::ID, true),
        b"[host]" => (Host::ID, true),
        b"[hfi]" => (Hfi::ID, true),
        b"[subsystem]" => (Ssns::ID, true),
        b"[security]" => (Security::ID, true),
        b"[discovery]" => (Discovery::ID, true),
        b"[hfi unused]" => (Hfi::ID, false),
        b"[subsystem unused]" => (Ssns::ID, false),
        b"[security unused]" => (Security::ID, false),
        b"[discovery unused]" => (Discovery::ID, false),
        _ => return None,
    };
    Some(Section { kind, used })
}

// Whether a line begins a section of a kind.
pub fn begins(line: &[u8], kind: u8) -> bool {
    section_of(trimmed(line)).is_some_and(|section| section.kind == kind)
}

// The line that begins the n-th section of a kind, counted from 0.
pub fn nth_section(text: &[u8], kind: u8, n: usize) -> Option<usize> {
    let lines = text.split(|b| *b == b'\n');
    let (number, _) = (1..)
        .zip(lines)
        .filter(|(_, line)| begins(line, kind))
        .nth(n)?;
    Some(number)
}
