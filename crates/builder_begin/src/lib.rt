// The beginning of a build: all that is known before the records.
#![tactic(auto)]

ghost use Rattle.std.specs.Prelude.{◌≡◌, [], ◌∷◌, ◌+◌, ◌≤◌, length};
ghost use Rattle.table.specs.Bytes.{splice};
ghost use Rattle.table.specs.Meaning.{laid_out};
ghost use Rattle.table.specs.Builder.{opened, begun, records_end, same_state, empty, Gives};
ghost use Rattle.builder_begin.specs.Begins.{header_told, begin_with, SmallCounts};

use builder_record::judging::refused;
use builder_told::objects::fits;
use bytes_front::{Counts, write_front};
use bytes_room::room_fault;
use bytes_writer::stores::{copy_into, fill_zero};
use table::{FRONT, Host, Need, State, Step};

// Whether nothing is begun.
fn is_empty(state: State) -> bool
    ensures { result ≡ same_state state empty }
{
    state == State::EMPTY
}

// The table of which nothing but this is told; `heap` is where its heap starts. The header minor is 0 until a record asks for more.
fn lay_opened(out: &mut [u8], oem: [u8; 26], counts: Counts, heap: usize, signature: &[u8])
    requires { (heap ≡ records_end (begun (counts.hfi ∷ counts.ssns ∷ counts.security ∷ counts.discovery ∷ []) 0)) × (160 ≤ heap) × (heap + length signature.now ≤ length out.old) × SmallCounts counts }
    ensures { out.new ≡ splice out.old 0 (laid_out (opened oem (counts.hfi ∷ counts.ssns ∷ counts.security ∷ counts.discovery ∷ []) (header_told signature.now)) 0 0 0 0) }
{
    write_front(out, &oem, counts, 0, heap, 0, signature.len(), 0);
    fill_zero(out, FRONT, heap - FRONT);
    copy_into(out, heap, signature);
}

fn begun_state(counts: Counts, used: usize) -> State
    ensures { (result ≡ begun (counts.hfi ∷ counts.ssns ∷ counts.security ∷ counts.discovery ∷ []) used) × SmallCounts counts }
{
    State {
        turn: Host::ID as u16,
        position: 0,
        hfi: counts.hfi,
        ssns: counts.ssns,
        security: counts.security,
        discovery: counts.discovery,
        used,
        minor: 0,
    }
}

// `oem` is the table's bytes 10 to 35, `counts` how many records each list is to have.
pub fn begin(out: &mut [u8], state: State, oem: [u8; 26], counts: Counts, signature: &[u8]) -> Step
    ensures { Gives (begin_with state out.old oem (counts.hfi ∷ counts.ssns ∷ counts.security ∷ counts.discovery ∷ []) signature.now) result out.new }
{
    if !is_empty(state) {
        return refused(table::refuse(15, 0, 0), state);
    }
    let fault = fits(Need::Optional, signature);
    if fault != 0 {
        return refused(table::refuse(fault, 0, 0), state);
    }
    // The heap starts where the records end, whatever will be used.
    let heap = builder_state::records_end(begun_state(counts, 0));
    let used = heap + signature.len();
    let room = room_fault(used, out.len());
    if room.number != 0 {
        return refused(room, state);
    }
    lay_opened(out, oem, counts, heap, signature);
    let begun = begun_state(counts, used);
    Step {
        answer: room,
        state: begun,
    }
}
