// A position of a list left unused: begin has zeroed its record.
ghost use Rattle.table.specs.Builder.{Gives};
ghost use Rattle.table.specs.Builder as definition;

use builder_record::judging::refused;
use table::{State, Step};

pub fn leave(out: &mut [u8], state: State) -> Step
    ensures { Gives (definition.leave state out.old) result out.new }
{
    if !builder_state::waits(state, state.turn) {
        return refused(table::refuse(15, 0, 0), state);
    }
    if state.position == 0 {
        return refused(table::refuse(15, 0, 0), state);
    }
    if state.used > out.len() {
        return refused(table::refuse(14, 0, 0), state);
    }
    let answer = table::done();
    let after = builder_state::next(state, 0, false);
    Step {
        answer,
        state: after,
    }
}
