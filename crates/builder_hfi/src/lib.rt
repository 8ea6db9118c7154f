// The builder's call for an HFI, which names its transport info; this names, under version 2, an HFI extended info where one is told. Any state,
// buffer and told bytes may be handed in. `told` is a record as the caller tells it, `marked` its bytes once the builder has set those that are its
// own to set (`builder_told::marks`); so are `info` and `extended` where they are slices.
#![tactic(auto)]

ghost use Rattle.std.specs.Prelude.{◌≡◌, true, ◌&&◌, [], ◌+◌, ◌≤◌, length, get_or, eqb};
ghost use Rattle.table.specs.Bytes.{pick, splice};
ghost use Rattle.table.specs.Layout.{text, base_of};
ghost use Rattle.table.specs.FixedLayouts as layouts;
ghost use Rattle.table.specs.Objects.{under};
ghost use Rattle.table.specs.Meaning.{limit};
ghost use Rattle.table.specs.Builder.{waits, ended, Gives};
ghost use Rattle.laws.specs.Fields.{image_in};
ghost use Rattle.builder_record.specs.Calls.{tell_hfi};
ghost use Rattle.builder_hfi.specs.HfiParts.{own_need, own_fault, hfi_fault, identity_size, identity_part, info_part, laid_hfi};

use builder_record::judging::{judged, refused};
use builder_record::laying::{lay_text, stepped};
use builder_told::marks::mark_whole;
use builder_told::objects::{ended_len, first_of, fits, fits_text, kept};
use builder_writers::{write_hfi, write_hfi_extended, write_info};
use bytes_room::room_fault;
use bytes_writer::stores::copy_into;
use table::{Hfi, HfiExtended, Info, Need, State, Step};

// Bytes of the transport info: its version, its flags, and the origin of its IP address.
const VERSION: usize = 3;

const FLAGS: usize = 6;

const ORIGIN: usize = 19;

// The version of a transport info that may name an HFI extended info, and asks for the newest header minor.
const NEWER: u8 = 2;

// The origin of an address that DHCP gave.
const FROM_DHCP: u8 = 3;

// The IAID's reference in an HFI extended info; the DUID counts where this does.
const IAID: usize = 8;

// Whether the transport info is of the newer version.
fn is_newer(info: &[u8]) -> bool
    requires { 128 ≤ length info.now }
    ensures { result ≡ eqb (get_or (image_in layouts.info info.now 0) 3 0) 2 }
{
    info[VERSION] == NEWER
}

// Whether there is an HFI extended info: one that is told under another version is dropped.
fn is_there(info: &[u8], extended_told: bool) -> bool
    requires { 128 ≤ length info.now }
    ensures { result ≡ (extended_told && eqb (get_or (image_in layouts.info info.now 0) 3 0) 2) }
{
    if extended_told {
        return is_newer(info);
    }
    false
}

// The need for the objects of the HFI extended info: there is none where the HFI extended info is not.
fn own_need(there: bool, extended: &[u8]) -> Need
    requires { 20 ≤ length extended.now }
    ensures { result ≡ own_need there (image_in layouts.hfi_extended extended.now 0) }
{
    if there {
        return layout_needs::identity_need(extended, IAID);
    }
    Need::Ignored
}

// 12 where the transport info has neither of its versions, or is autoconfigured (flag 3, which counts under version 2) and from DHCP (flag 2) or of some
// origin.
fn info_fault(info: &[u8]) -> u8
    requires { 128 ≤ length info.now }
    ensures { result ≡ pick (layouts.info_rule [] (image_in layouts.info info.now 0)) 0 12 }
{
    if info[VERSION] == 1 {
        return 0;
    }
    if info[VERSION] != NEWER {
        return 12;
    }
    if info[FLAGS] / 8 % 2 == 0 {
        return 0;
    }
    if info[FLAGS] / 4 % 2 != 0 {
        return 12;
    }
    if info[ORIGIN] != 0 {
        return 12;
    }
    0
}

// 12 where the HFI extended info has a client identifier (flag 1) and the address is not from DHCP.
fn identity_fault(info: &[u8], extended: &[u8]) -> u8
    requires { (128 ≤ length info.now) × (20 ≤ length extended.now) }
    ensures { result ≡ pick (layouts.identity_rule (image_in layouts.info info.now 0) (image_in layouts.hfi_extended extended.now 0)) 0 12 }
{
    if layout_flags::identity_flags(extended) / 2 % 2 == 0 {
        return 0;
    }
    if info[ORIGIN] == FROM_DHCP {
        return 0;
    }
    12
}

// The fault of the heap records, by their own rules.
fn own_fault(info: &[u8], there: bool, extended: &[u8]) -> u8
    requires { (128 ≤ length info.now) × (20 ≤ length extended.now) }
    ensures { result ≡ own_fault (image_in layouts.info info.now 0) there (image_in layouts.hfi_extended extended.now 0) }
{
    let fault = info_fault(info);
    if there {
        return first_of(fault, identity_fault(info, extended));
    }
    fault
}

// The first fault of the objects, by the needs for them.
fn object_fault(name: &[u8], there: bool, extended: &[u8], iaid: &[u8], duid: &[u8]) -> u8
    requires { 20 ≤ length extended.now }
    ensures { result ≡ hfi_fault name.now (own_need there (image_in layouts.hfi_extended extended.now 0)) iaid.now duid.now }
{
    let need = own_need(there, extended);
    let identity = first_of(fits(need, iaid), fits(need, duid));
    first_of(fits_text(Need::Optional, name), identity)
}

// The HFI extended info's bytes, none where it is not.
fn own_size(there: bool) -> usize
    ensures { (result ≡ pick there 20 0) × (result ≤ 20) }
{
    if there {
        return HfiExtended::SIZE;
    }
    0
}

// The bytes of the HFI extended info and of its objects, which are empty where it is not.
fn identity_size(there: bool, iaid: &[u8], duid: &[u8]) -> usize
    requires { (length iaid.now ≤ 65535) × (length duid.now ≤ 65535) }
    ensures { (result ≡ identity_size there iaid.now duid.now) × (result ≤ 131090) }
{
    own_size(there) + (iaid.len() + duid.len())
}

// The HFI extended info at `at`, and behind it its IAID and its DUID; nothing where it is not.
fn lay_identity(out: &mut [u8], at: usize, there: bool, extended: &[u8], iaid: &[u8], duid: &[u8])
    requires { (length extended.now ≡ base_of layouts.hfi_extended) × (length iaid.now ≤ 65535) × (length duid.now ≤ 65535) × (at ≤ limit) × (at + identity_size there iaid.now duid.now ≤ length out.old) }
    ensures { out.new ≡ splice out.old at (identity_part extended.now at there iaid.now duid.now) }
{
    if there {
        let end = at + HfiExtended::SIZE;
        write_hfi_extended(&mut out[at..end], extended, end, iaid.len(), duid.len());
        copy_into(out, end, iaid);
        copy_into(out, end + iaid.len(), duid);
    }
}

// The transport info at `at`, and behind it its host name and its HFI extended info.
fn lay_info(
    out: &mut [u8],
    at: usize,
    info: &[u8],
    name: &[u8],
    there: bool,
    extended: &[u8],
    iaid: &[u8],
    duid: &[u8],
)
    requires info_len { (length info.now ≡ base_of layouts.info) × (length extended.now ≡ base_of layouts.hfi_extended) }
    requires name_len_bound { (length (ended text name.now) ≤ 65535) × (length iaid.now ≤ 65535) × (length duid.now ≤ 65535) }
    requires duid_bound { (at + (128 + (length (ended text name.now) + identity_size there iaid.now duid.now)) ≤ limit) × (at + (128 + (length (ended text name.now) + identity_size there iaid.now duid.now)) ≤ length out.old) }
    ensures { out.new ≡ splice out.old at (info_part info.now at (ended text name.now) there extended.now iaid.now duid.now) }
{
    let end = at + Info::SIZE;
    let size = own_size(there);
    let span = identity_size(there, iaid, duid);
    let name_len = ended_len(name);
    write_info(&mut out[at..end], info, end, name_len, size, span);
    lay_text(out, end, name);
    lay_identity(out, end + name_len, there, extended, iaid, duid);
}

// The HFI, and behind the bytes used its transport info with what this names, where there is room.
fn lay_hfi(
    out: &mut [u8],
    state: State,
    marked: &[u8],
    info: &[u8],
    name: &[u8],
    there: bool,
    extended: &[u8],
    iaid: &[u8],
    duid: &[u8],
) -> Step
    requires state_value { (waits state 3 ≡ true) × (length marked.now ≡ base_of layouts.hfi) × (length info.now ≡ base_of layouts.info) × (length extended.now ≡ base_of layouts.hfi_extended) }
    requires name_len_bound { (length (ended text name.now) ≤ 65535) × (length (under (own_need there (image_in layouts.hfi_extended extended.now 0)) [] iaid.now) ≤ 65535) × (length (under (own_need there (image_in layouts.hfi_extended extended.now 0)) [] duid.now) ≤ 65535) }
    ensures { Gives (laid_hfi state out.old marked.now info.now (ended text name.now) there extended.now iaid.now duid.now) result out.new }
{
    let used = state.used;
    let need = own_need(there, extended);
    let own_iaid = kept(need, iaid);
    let own_duid = kept(need, duid);
    let named = ended_len(name) + identity_size(there, own_iaid, own_duid);
    let written = Info::SIZE + named;
    let room = room_fault(used + written, out.len());
    if room.number != 0 {
        return refused(room, state);
    }
    let at = builder_state::place_of(state, Hfi::ID);
    let end = at + Hfi::SIZE;
    write_hfi(&mut out[at..end], marked, used, named);
    lay_info(out, used, info, name, there, extended, own_iaid, own_duid);
    stepped(room, state, written, is_newer(info))
}

// An HFI, its transport info, the host name that this names, and where `extended_told` the HFI extended info with its IAID and DUID.
pub fn hfi(
    out: &mut [u8],
    state: State,
    told: Hfi,
    info: Info,
    name: &[u8],
    extended_told: bool,
    extended: HfiExtended,
    iaid: &[u8],
    duid: &[u8],
) -> Step
    ensures { Gives (tell_hfi state out.old told.bytes info.bytes name.now extended_told extended.bytes iaid.now duid.now) result out.new }
{
    let bytes = told.bytes;
    let marked = mark_whole(bytes, Hfi::ID, state.position as usize);
    let info_bytes = info.bytes;
    let marked_info = mark_whole(info_bytes, Info::ID, state.position as usize);
    let extended_bytes = extended.bytes;
    let marked_extended = mark_whole(extended_bytes, HfiExtended::ID, state.position as usize);
    let there = is_there(&marked_info, extended_told);
    let own = own_fault(&marked_info, there, &marked_extended);
    let objects = object_fault(name, there, &marked_extended, iaid, duid);
    let answer = judged(state, Hfi::ID, &marked, own, objects);
    if answer.number != 0 {
        return refused(answer, state);
    }
    lay_hfi(
        out,
        state,
        &marked,
        &marked_info,
        name,
        there,
        &marked_extended,
        iaid,
        duid,
    )
}
