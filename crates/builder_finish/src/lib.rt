// The end of a build. The reader judges the bytes as they would be: they are stored, judged, and put back where it refuses them (D82).
#![tactic(auto)]

ghost use Rattle.std.specs.Prelude.{◌≡◌, true, ◌≤◌, length, take, eqb};
ghost use Rattle.table.specs.Bytes.{pick};
ghost use Rattle.table.specs.Numbers.{check};
ghost use Rattle.table.specs.Builder.{waits, finishing, sealed, Gives};
ghost use Rattle.table.specs.Builder as definition;

use builder_record::judging::refused;
use bytes_writer::checksum::seal;
use bytes_writer::stores::{put_u8, put_u32};
use table::{Answer, SHORTEST, State, Step};

// Where the header has its minor.
const MINOR: usize = 50;

// What the reader says of the finished bytes; they stay only where it accepts them.
fn judge_finished(out: &mut [u8], state: State) -> Answer
    requires { (waits state finishing ≡ true) × (state.used ≤ length out.old) }
    ensures { (result ≡ check (take state.used (sealed state out.old))) × (out.new ≡ pick (eqb result.number 0) (sealed state out.old) out.old) }
{
    let used = state.used;
    let minor = out[MINOR];
    put_u8(out, MINOR, state.minor as u8);
    let heap = bytes_wire::u32_at(&out[0..SHORTEST], 40);
    put_u32(out, 40, used - builder_state::records_end(state));
    let length = bytes_wire::u32_at(&out[0..SHORTEST], 4);
    put_u32(out, 4, used);
    let sum = out[9];
    put_u8(out, 9, 0);
    seal(out, used);
    let judged = reader::check(&out[0..used]);
    if judged.number != 0 {
        put_u8(out, 9, sum);
        put_u32(out, 4, length);
        put_u32(out, 40, heap);
        put_u8(out, MINOR, minor);
    }
    judged
}

pub fn finish(out: &mut [u8], state: State) -> Step
    ensures { Gives (definition.finish state out.old) result out.new }
{
    if !builder_state::waits(state, builder_state::FINISHING) {
        return refused(table::refuse(15, 0, 0), state);
    }
    if state.used > out.len() {
        return refused(table::refuse(14, 0, 0), state);
    }
    let finished = builder_state::finished(state);
    let answer = judge_finished(out, state);
    if answer.number != 0 {
        return refused(answer, state);
    }
    Step {
        answer,
        state: finished,
    }
}
