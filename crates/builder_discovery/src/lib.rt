// The builder's call for a discovery controller. Any state, buffer and told bytes may be handed in. `told` is a record as the caller tells it,
// `marked` its bytes once the builder has set those that are its own to set (`builder_told::marks`).
#![tactic(auto)]

ghost use Rattle.std.specs.Prelude.{◌≡◌, true, ◌≤◌, length};
ghost use Rattle.table.specs.Layout.{text, base_of};
ghost use Rattle.table.specs.FixedLayouts as layouts;
ghost use Rattle.table.specs.Builder.{waits, ended, Gives};
ghost use Rattle.builder_record.specs.Steps.{laid};
ghost use Rattle.builder_record.specs.Calls.{discovery_told, tell_discovery};

use builder_record::judging::{judged, refused};
use builder_record::laying::{lay_text, stepped};
use builder_told::marks::mark_whole;
use builder_told::objects::{ended_len, first_of, fits_text};
use builder_writers::write_discovery;
use bytes_room::room_fault;
use table::{Discovery, Need, State, Step};

// The discovery controller, its address and its NQN, both texts, where there is room.
fn lay_discovery(out: &mut [u8], state: State, marked: &[u8], address: &[u8], nqn: &[u8]) -> Step
    requires { (waits state 6 ≡ true) × (length marked.now ≡ base_of layouts.discovery) × (length (ended text address.now) ≤ 65535) × (length (ended text nqn.now) ≤ 65535) }
    ensures { Gives (laid layouts.discovery state out.old marked.now (discovery_told (ended text address.now) (ended text nqn.now))) result out.new }
{
    let used = state.used;
    let address_len = ended_len(address);
    let nqn_len = ended_len(nqn);
    let written = address_len + nqn_len;
    let room = room_fault(used + written, out.len());
    if room.number != 0 {
        return refused(room, state);
    }
    let at = builder_state::place_of(state, Discovery::ID);
    let end = at + Discovery::SIZE;
    write_discovery(&mut out[at..end], marked, used, address_len, nqn_len);
    lay_text(out, used, address);
    lay_text(out, used + address_len, nqn);
    stepped(room, state, written, false)
}

// A discovery controller, its address and its NQN.
pub fn discovery(out: &mut [u8], state: State, told: Discovery, address: &[u8], nqn: &[u8]) -> Step
    ensures { Gives (tell_discovery state out.old told.bytes address.now nqn.now) result out.new }
{
    let bytes = told.bytes;
    let marked = mark_whole(bytes, Discovery::ID, state.position as usize);
    let fault = first_of(
        fits_text(Need::Optional, address),
        fits_text(Need::Optional, nqn),
    );
    let answer = judged(state, Discovery::ID, &marked, 0, fault);
    if answer.number != 0 {
        return refused(answer, state);
    }
    lay_discovery(out, state, &marked, address, nqn)
}
