// The builder's call for the host. Any state, buffer and told bytes may be handed in. `told` is a record as the caller tells it, `marked` its
// bytes once the builder has set those that are its own to set (`builder_told::marks`).
#![tactic(auto)]

ghost use Rattle.std.specs.Prelude.{◌≡◌, true, ◌≤◌, length};
ghost use Rattle.table.specs.Layout.{text, base_of};
ghost use Rattle.table.specs.FixedLayouts as layouts;
ghost use Rattle.table.specs.Builder.{waits, ended, Gives};
ghost use Rattle.builder_record.specs.Steps.{laid};
ghost use Rattle.builder_record.specs.Calls.{host_told, tell_host};

use builder_record::judging::{judged, refused};
use builder_record::laying::{lay_text, stepped};
use builder_told::marks::mark_whole;
use builder_told::objects::{ended_len, fits_text};
use builder_writers::write_host;
use bytes_room::room_fault;
use table::{Host, Need, State, Step};

// The host and its NQN, a text, where there is room.
fn lay_host(out: &mut [u8], state: State, marked: &[u8], nqn: &[u8]) -> Step
    requires { (waits state 2 ≡ true) × (length marked.now ≡ base_of layouts.host) × (length (ended text nqn.now) ≤ 65535) }
    ensures { Gives (laid layouts.host state out.old marked.now (host_told (ended text nqn.now))) result out.new }
{
    let used = state.used;
    let written = ended_len(nqn);
    let room = room_fault(used + written, out.len());
    if room.number != 0 {
        return refused(room, state);
    }
    let at = builder_state::place_of(state, Host::ID);
    let end = at + Host::SIZE;
    write_host(&mut out[at..end], marked, used, written);
    lay_text(out, used, nqn);
    stepped(room, state, written, false)
}

// A host and its NQN.
pub fn host(out: &mut [u8], state: State, told: Host, nqn: &[u8]) -> Step
    ensures { Gives (tell_host state out.old told.bytes nqn.now) result out.new }
{
    let bytes = told.bytes;
    let marked = mark_whole(bytes, Host::ID, state.position as usize);
    let answer = judged(state, Host::ID, &marked, 0, fits_text(Need::Required, nqn));
    if answer.number != 0 {
        return refused(answer, state);
    }
    lay_host(out, state, &marked, nqn)
}
