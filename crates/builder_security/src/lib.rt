// The builder's call for a security profile. Any state, buffer and told bytes may be handed in. `told` is a record as the caller tells it,
// `marked` its bytes once the builder has set those that are its own to set (`builder_told::marks`).
#![tactic(auto)]

ghost use Rattle.std.specs.Prelude.{◌≡◌, true, ◌≤◌, length};
ghost use Rattle.table.specs.Layout.{base_of};
ghost use Rattle.table.specs.FixedLayouts as layouts;
ghost use Rattle.table.specs.Builder.{waits, Gives};
ghost use Rattle.laws.specs.Fields.{image_in};
ghost use Rattle.builder_record.specs.Steps.{laid};
ghost use Rattle.builder_record.specs.Calls.{security_told, tell_security};
ghost use Rattle.builder_security.specs.SecurityFaults.{security_fault};

use builder_record::judging::{judged, refused};
use builder_record::laying::{lay_pieces, stepped};
use builder_told::marks::mark_whole;
use builder_told::objects::{first_of, fits, kept};
use builder_writers::write_security;
use bytes_room::room_fault;
use layout_needs::security_need;
use table::{Security, State, Step};

// The first fault of the objects of a security record, by the needs of their references.
fn security_fault(
    marked: &[u8],
    algorithms: &[u8],
    protocols: &[u8],
    ciphers: &[u8],
    groups: &[u8],
    hashes: &[u8],
    keypath: &[u8],
) -> u8
    requires { 64 ≤ length marked.now }
    ensures { result ≡ security_fault (image_in layouts.security marked.now 0) algorithms.now protocols.now ciphers.now groups.now hashes.now keypath.now }
{
    let last = first_of(
        fits(security_need(marked, 0, 30), hashes),
        fits(security_need(marked, 0, 36), keypath),
    );
    let late = first_of(fits(security_need(marked, 0, 24), groups), last);
    let rest = first_of(fits(security_need(marked, 0, 18), ciphers), late);
    first_of(
        fits(security_need(marked, 0, 6), algorithms),
        first_of(fits(security_need(marked, 0, 12), protocols), rest),
    )
}

// The security profile and its objects, where there is room.
fn lay_security(
    out: &mut [u8],
    state: State,
    marked: &[u8],
    algorithms: &[u8],
    protocols: &[u8],
    ciphers: &[u8],
    groups: &[u8],
    hashes: &[u8],
    keypath: &[u8],
) -> Step
    requires state_value { (waits state 5 ≡ true) × (length marked.now ≡ base_of layouts.security) }
    requires algorithms_len_bound { (length algorithms.now ≤ 65535) × (length protocols.now ≤ 65535) × (length ciphers.now ≤ 65535) × (length groups.now ≤ 65535) × (length hashes.now ≤ 65535) × (length keypath.now ≤ 65535) }
    ensures { Gives (laid layouts.security state out.old marked.now (security_told algorithms.now protocols.now ciphers.now groups.now hashes.now keypath.now)) result out.new }
{
    let used = state.used;
    let written = algorithms.len()
        + protocols.len()
        + ciphers.len()
        + groups.len()
        + hashes.len()
        + keypath.len();
    let room = room_fault(used + written, out.len());
    if room.number != 0 {
        return refused(room, state);
    }
    let at = builder_state::place_of(state, Security::ID);
    let end = at + Security::SIZE;
    write_security(
        &mut out[at..end],
        marked,
        used,
        algorithms.len(),
        protocols.len(),
        ciphers.len(),
        groups.len(),
        hashes.len(),
        keypath.len(),
    );
    lay_pieces(
        out, used, algorithms, protocols, ciphers, groups, hashes, keypath,
    );
    stepped(room, state, written, false)
}

// A security profile and its objects, in the order of their references: those at 6, 12, 18, 24, 30 and 36.
pub fn security(
    out: &mut [u8],
    state: State,
    told: Security,
    algorithms: &[u8],
    protocols: &[u8],
    ciphers: &[u8],
    groups: &[u8],
    hashes: &[u8],
    keypath: &[u8],
) -> Step
    ensures { Gives (tell_security state out.old told.bytes algorithms.now protocols.now ciphers.now groups.now hashes.now keypath.now) result out.new }
{
    let bytes = told.bytes;
    let marked = mark_whole(bytes, Security::ID, state.position as usize);
    let fault = security_fault(
        &marked, algorithms, protocols, ciphers, groups, hashes, keypath,
    );
    let answer = judged(state, Security::ID, &marked, 0, fault);
    if answer.number != 0 {
        return refused(answer, state);
    }
    lay_security(
        out,
        state,
        &marked,
        kept(security_need(&marked, 0, 6), algorithms),
        kept(security_need(&marked, 0, 12), protocols),
        kept(security_need(&marked, 0, 18), ciphers),
        kept(security_need(&marked, 0, 24), groups),
        kept(security_need(&marked, 0, 30), hashes),
        kept(security_need(&marked, 0, 36), keypath),
    )
}
