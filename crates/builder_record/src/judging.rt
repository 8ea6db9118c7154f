// The tests before the room is looked at: turn, two-bit fields, heap records, objects.
ghost use Rattle.std.specs.Prelude.{◌≡◌, ◌≤◌, length};
ghost use Rattle.table.specs.Layout.{base_of};
ghost use Rattle.table.specs.FixedLayouts.{layout_of};
ghost use Rattle.table.specs.Rules.{first_fail};
ghost use Rattle.laws.specs.Fields.{image_in};
ghost use Rattle.builder_record.specs.Steps.{judge_tests};

use table::{Answer, State, Step};

// What is told of a record, in a state. `own` is the fault of a rule of the builder's own, `objects` the first fault of the record's objects; each is 0
// where there is none.
pub fn judged(state: State, kind: u8, told: &[u8], own: u8, objects: u8) -> Answer
    requires { (2 ≤ kind) × (kind ≤ 6) × (length told.now ≡ base_of (layout_of kind)) }
    ensures { result ≡ first_fail (judge_tests (layout_of kind) state (image_in (layout_of kind) told.now 0) own objects) }
{
    let position = state.position as usize;
    if !builder_state::waits(state, kind as u16) {
        return table::refuse(15, 0, 0);
    }
    if !layout_flags::pairs_right(told, kind, 0) {
        return table::refuse(10, kind, position);
    }
    if own != 0 {
        return table::refuse(own, kind, position);
    }
    if objects != 0 {
        return table::refuse(objects, kind, position);
    }
    table::done()
}

// A refused call hands back the state that it was given.
pub fn refused(answer: Answer, state: State) -> Step
    ensures { (result.answer ≡ answer) × (result.state ≡ state) }
{
    Step { answer, state }
}
