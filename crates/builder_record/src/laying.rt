// What every call does for a told record that has passed its tests: objects behind the bytes used, and the state that it hands back.
ghost use Rattle.std.specs.Prelude.{◌≡◌, [], ◌∷◌, ◌+◌, ◌≤◌, length};
ghost use Rattle.table.specs.Bytes.{splice};
ghost use Rattle.table.specs.Layout.{text};
ghost use Rattle.table.specs.Meaning.{limit};
ghost use Rattle.table.specs.Builder.{ended};
ghost use Rattle.table.specs.Builder as definition;
ghost use Rattle.bytes_writer.proofs.StoreLaws.{concat};

use bytes_writer::stores::{copy_into, put_u8};
use table::{Answer, State, Step};

// Six objects, one behind the other from `next` on; a record that names fewer has empty ones.
pub fn lay_pieces(
    out: &mut [u8],
    next: usize,
    first: &[u8],
    second: &[u8],
    third: &[u8],
    fourth: &[u8],
    fifth: &[u8],
    sixth: &[u8],
)
    requires { next + length (concat (first.now ∷ second.now ∷ third.now ∷ fourth.now ∷ fifth.now ∷ sixth.now ∷ [])) ≤ length out.old }
    ensures { out.new ≡ splice out.old next (concat (first.now ∷ second.now ∷ third.now ∷ fourth.now ∷ fifth.now ∷ sixth.now ∷ [])) }
{
    copy_into(out, next, first);
    let at2 = next + first.len();
    copy_into(out, at2, second);
    let at3 = at2 + second.len();
    copy_into(out, at3, third);
    let at4 = at3 + third.len();
    copy_into(out, at4, fourth);
    let at5 = at4 + fourth.len();
    copy_into(out, at5, fifth);
    copy_into(out, at5 + fifth.len(), sixth);
}

// A text and its terminator; nothing of an empty one.
pub fn lay_text(out: &mut [u8], at: usize, object: &[u8])
    requires { at + length (ended text object.now) ≤ length out.old }
    ensures { out.new ≡ splice out.old at (ended text object.now) }
{
    let len = object.len();
    if len == 0 {
        return;
    }
    copy_into(out, at, object);
    put_u8(out, at + len, 0);
}

// A done call hands back the next state: `written` bytes of objects and heap records were written, and `newer` says that the record asks for the
// newest header minor.
pub fn stepped(answer: Answer, state: State, written: usize, newer: bool) -> Step
    requires { state.used + written ≤ limit }
    ensures { (result.answer ≡ answer) × (result.state ≡ definition.next state written newer) }
{
    let after = builder_state::next(state, written, newer);
    Step {
        answer,
        state: after,
    }
}
