// A section told to the builder by the call of its kind. What that call would drop without a word is found before.
ghost use Rattle.std.specs.Prelude.{◌+◌, ◌≤◌};

use bytes_front::Counts;
use description_draft::Draft;
use description_draft::wrongs::Wrong;
use description_words::{IDENTITY, INNER};
use layout_needs::security_need;
use table::{
    Discovery, Extended, Header, Hfi, HfiExtended, Host, Info, Need, Security, Ssns, State, Step,
};

// Whether the builder would drop what is told at a place: the flags, or the version of a transport info, say that it does not count.
fn is_dropped(kind: u8, at: usize, b: &[u8; 256]) -> bool {
    match kind {
        Hfi::ID => is_client_dropped(at, b),
        Ssns::ID => is_index_dropped(at, b[3]),
        Security::ID => is_object_dropped(at, b),
        _ => false,
    }
}

// Of an HFI: the DHCP server's address, and what the HFI extended info says.
fn is_client_dropped(at: usize, b: &[u8; 256]) -> bool {
    if at < 128 {
        return is_identity_dropped(at, b[131], b[36]);
    }
    at == 216 && b[134] / 4 % 2 == 0
}

// A transport info of version 1 names no HFI extended info, and any but 1 and 2 the builder refuses. IAID and DUID count under flag 1 of that record,
// so they do not where its flags are not told.
fn is_identity_dropped(at: usize, version: u8, flags: u8) -> bool {
    version == 1 || at != 36 && flags / 2 % 2 == 0
}

// Of a subsystem: its security record, and the extended info.
fn is_index_dropped(at: usize, flags: u8) -> bool {
    match at {
        45 => flags / 4 % 2 == 0,
        128.. => flags / 16 % 2 == 0,
        _ => false,
    }
}

// Of a security record: its objects, whose references stand from byte 6 on.
fn is_object_dropped(at: usize, b: &[u8; 256]) -> bool {
    6 <= at && matches!(security_need(b, 0, at), Need::Ignored)
}

// The line of the first field or object that would be dropped.
pub fn dropped_line(d: &Draft) -> Option<usize> {
    for (at, line) in d.lines.iter().enumerate() {
        if line.is_some() && is_dropped(d.kind, at, &d.fields) {
            return *line;
        }
    }
    None
}

// The bytes of one record, among those of a section.
fn part_of<const N: usize>(fields: &[u8; 256], from: usize) -> [u8; N]
    requires { from + N ≤ 256 }
{
    let mut part = [0; N];
    part.copy_from_slice(&fields[from..from + N]);
    part
}

// Of the header the table's bytes 10 to 35 are told.
fn tell_header(out: &mut [u8], s: State, d: &Draft, c: Counts, room: &[u8]) -> Step {
    builder::begin(out, s, part_of(&d.fields, 10), c, d.object(0, room))
}

fn tell_host(out: &mut [u8], s: State, d: &Draft, room: &[u8]) -> Step {
    let bytes = part_of(&d.fields, 0);
    builder::host(out, s, Host { bytes }, d.object(0, room))
}

// The flags of an HFI extended info, where they are told, tell that there is one.
fn tell_hfi(out: &mut [u8], s: State, d: &Draft, room: &[u8]) -> Step {
    builder::hfi(
        out,
        s,
        Hfi {
            bytes: part_of(&d.fields, 0),
        },
        Info {
            bytes: part_of(&d.fields, INNER),
        },
        d.object(0, room),
        d.lines[IDENTITY + 4].is_some(),
        HfiExtended {
            bytes: part_of(&d.fields, IDENTITY),
        },
        d.object(1, room),
        d.object(2, room),
    )
}

fn tell_subsystem(out: &mut [u8], s: State, d: &Draft, room: &[u8]) -> Step {
    builder::ssns(
        out,
        s,
        Ssns {
            bytes: part_of(&d.fields, 0),
        },
        d.object(0, room),
        d.object(1, room),
        d.object(2, room),
        d.object(3, room),
        Extended {
            bytes: part_of(&d.fields, INNER),
        },
        d.object(4, room),
    )
}

fn tell_security(out: &mut [u8], s: State, d: &Draft, room: &[u8]) -> Step {
    builder::security(
        out,
        s,
        Security {
            bytes: part_of(&d.fields, 0),
        },
        d.object(0, room),
        d.object(1, room),
        d.object(2, room),
        d.object(3, room),
        d.object(4, room),
        d.object(5, room),
    )
}

fn tell_discovery(out: &mut [u8], s: State, d: &Draft, room: &[u8]) -> Step {
    let bytes = part_of(&d.fields, 0);
    let (uri, nqn) = (d.object(0, room), d.object(1, room));
    builder::discovery(out, s, Discovery { bytes }, uri, nqn)
}

// By the call of its kind; a position without fields is left.
fn step_of(out: &mut [u8], s: State, d: &Draft, c: Counts, room: &[u8]) -> Step {
    if !d.used {
        return builder::leave(out, s);
    }
    match d.kind {
        Header::ID => tell_header(out, s, d, c, room),
        Host::ID => tell_host(out, s, d, room),
        Hfi::ID => tell_hfi(out, s, d, room),
        Ssns::ID => tell_subsystem(out, s, d, room),
        Security::ID => tell_security(out, s, d, room),
        _ => tell_discovery(out, s, d, room),
    }
}

// The builder's state behind a section, or what it answers where it refuses.
pub fn tell(out: &mut [u8], s: State, d: &Draft, c: Counts, room: &[u8]) -> Result<State, Wrong> {
    let Step { answer, state } = step_of(out, s, d, c, room);
    if answer.number != 0 {
        return Err(Wrong::Refused(answer));
    }
    Ok(state)
}
