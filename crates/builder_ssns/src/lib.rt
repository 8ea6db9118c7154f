// The builder's call for an SSNS record, which names, under flag 4, its extended info. Any state, buffer and told bytes may be handed in. `told`
// is a record as the caller tells it, `marked` its bytes once the builder has set those that are its own to set (`builder_told::marks`); so is
// `extended` where it is a slice.
#![tactic(auto)]

ghost use Rattle.std.specs.Prelude.{◌≡◌, true, [], ◌+◌, ◌≤◌, length};
ghost use Rattle.table.specs.Bytes.{splice};
ghost use Rattle.table.specs.Layout.{text, base_of};
ghost use Rattle.table.specs.FixedLayouts as layouts;
ghost use Rattle.table.specs.Objects.{under};
ghost use Rattle.table.specs.Meaning.{limit};
ghost use Rattle.table.specs.Builder.{waits, ended, Gives};
ghost use Rattle.laws.specs.Fields.{image_in};
ghost use Rattle.builder_record.specs.Calls.{tell_ssns};
ghost use Rattle.builder_ssns.specs.SsnsParts.{own_need, ssns_fault, extended_size, extended_part, named_part, laid_ssns};

use builder_record::judging::{judged, refused};
use builder_record::laying::{lay_pieces, lay_text, stepped};
use builder_told::marks::mark_whole;
use builder_told::objects::{ended_len, first_of, fits, fits_text, kept, positions_fault};
use builder_writers::{write_extended, write_ssns};
use bytes_room::room_fault;
use layout_flags::ssns_flags;
use table::{Extended, Need, Ssns, State, Step};

// The need for the object of the extended info: there is none where the extended info is not.
fn own_need(marked: &[u8]) -> Need
    requires { 128 ≤ length marked.now }
    ensures { result ≡ own_need (image_in layouts.ssns marked.now 0) }
{
    if ssns_flags(marked, 0) / 16 % 2 == 0 {
        return Need::Ignored;
    }
    Need::Optional
}

// The extended info's bytes, none where it is not.
fn own_size(need: Need) -> usize
    ensures { (result ≡ under need 0 18) × (result ≤ 18) }
{
    match need {
        Need::Ignored => 0,
        Need::Optional => Extended::SIZE,
        Need::Required => Extended::SIZE,
    }
}

// The first fault of the objects of an SSNS record, by the needs for them and by how many HFIs are told.
fn ssns_fault(
    marked: &[u8],
    hfis: usize,
    address: &[u8],
    service: &[u8],
    others: &[u8],
    nqn: &[u8],
    path: &[u8],
) -> u8
    requires { 128 ≤ length marked.now }
    ensures { result ≡ ssns_fault (image_in layouts.ssns marked.now 0) hfis address.now service.now others.now nqn.now path.now }
{
    let last = first_of(
        fits_text(Need::Required, nqn),
        fits_text(own_need(marked), path),
    );
    let listed = first_of(fits(Need::Optional, others), positions_fault(others, hfis));
    let rest = first_of(listed, last);
    first_of(
        fits(Need::Required, address),
        first_of(fits(Need::Required, service), rest),
    )
}

// The extended info at `at`, and behind it its root path; nothing where it is to have no bytes.
fn lay_extended(out: &mut [u8], at: usize, size: usize, extended: &[u8], path: &[u8])
    requires { (length extended.now ≡ base_of layouts.extended) × (length (ended text path.now) ≤ 65535) × (at ≤ limit) × (at + extended_size size (ended text path.now) ≤ length out.old) }
    ensures { out.new ≡ splice out.old at (extended_part extended.now at size (ended text path.now)) }
{
    if size == 0 {
        return;
    }
    let end = at + Extended::SIZE;
    write_extended(&mut out[at..end], extended, end, ended_len(path));
    lay_text(out, end, path);
}

// What an SSNS record names, from `next` on.
fn lay_named(
    out: &mut [u8],
    next: usize,
    address: &[u8],
    service: &[u8],
    others: &[u8],
    nqn: &[u8],
    size: usize,
    extended: &[u8],
    path: &[u8],
)
    requires extended_len { (length extended.now ≡ base_of layouts.extended) × (length (ended text path.now) ≤ 65535) }
    requires path_bound { (next + (length address.now + length service.now + length others.now + length (ended text nqn.now) + extended_size size (ended text path.now)) ≤ limit) × (next + (length address.now + length service.now + length others.now + length (ended text nqn.now) + extended_size size (ended text path.now)) ≤ length out.old) }
    ensures { out.new ≡ splice out.old next (named_part next address.now service.now others.now (ended text nqn.now) size extended.now (ended text path.now)) }
{
    let none = &nqn[0..0];
    lay_pieces(out, next, address, service, others, none, none, none);
    let at = next + address.len() + service.len() + others.len();
    lay_text(out, at, nqn);
    lay_extended(out, at + ended_len(nqn), size, extended, path);
}

// The SSNS record and what it names, where there is room; its extended info and the object of this only where its flag 4 is set.
fn lay_ssns(
    out: &mut [u8],
    state: State,
    marked: &[u8],
    extended: &[u8],
    address: &[u8],
    service: &[u8],
    others: &[u8],
    nqn: &[u8],
    path: &[u8],
) -> Step
    requires state_value { (waits state 4 ≡ true) × (length marked.now ≡ base_of layouts.ssns) × (length extended.now ≡ base_of layouts.extended) }
    requires address_len_bound { (length address.now ≤ 65535) × (length service.now ≤ 65535) × (length others.now ≤ 65535) × (length (ended text nqn.now) ≤ 65535) × (length (under (own_need (image_in layouts.ssns marked.now 0)) [] (ended text path.now)) ≤ 65535) }
    ensures { Gives (laid_ssns state out.old marked.now extended.now address.now service.now others.now (ended text nqn.now) (ended text path.now)) result out.new }
{
    let used = state.used;
    let need = own_need(marked);
    let size = own_size(need);
    let own = kept(need, path);
    let nqn_len = ended_len(nqn);
    let path_len = ended_len(own);
    let front = address.len() + service.len() + others.len() + nqn_len;
    let written = front + size + path_len;
    let room = room_fault(used + written, out.len());
    if room.number != 0 {
        return refused(room, state);
    }
    let at = builder_state::place_of(state, Ssns::ID);
    let end = at + Ssns::SIZE;
    write_ssns(
        &mut out[at..end],
        marked,
        used,
        address.len(),
        service.len(),
        others.len(),
        nqn_len,
        size,
        path_len,
    );
    lay_named(
        out, used, address, service, others, nqn, size, extended, own,
    );
    stepped(room, state, written, false)
}

// An SSNS record: address, service, secondary HFI indexes, NQN; its extended info, and the DHCP root path that this names.
pub fn ssns(
    out: &mut [u8],
    state: State,
    told: Ssns,
    address: &[u8],
    service: &[u8],
    others: &[u8],
    nqn: &[u8],
    extended: Extended,
    path: &[u8],
) -> Step
    ensures { Gives (tell_ssns state out.old told.bytes address.now service.now others.now nqn.now extended.bytes path.now) result out.new }
{
    let bytes = told.bytes;
    let marked = mark_whole(bytes, Ssns::ID, state.position as usize);
    let extended_bytes = extended.bytes;
    let marked_extended = mark_whole(extended_bytes, Extended::ID, state.position as usize);
    let hfis = state.hfi as usize;
    let fault = ssns_fault(&marked, hfis, address, service, others, nqn, path);
    let answer = judged(state, Ssns::ID, &marked, 0, fault);
    if answer.number != 0 {
        return refused(answer, state);
    }
    lay_ssns(
        out,
        state,
        &marked,
        &marked_extended,
        address,
        service,
        others,
        nqn,
        path,
    )
}
