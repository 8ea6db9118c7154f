// A builder's state as 16 bytes for callers in C, and what a call hands back to them.
#![tactic(auto)]

ghost use Rattle.std.specs.Prelude.{◌≡◌, [], ◌∷◌, ◌<◌, length};
ghost use Rattle.c_answers.specs.Packed.{packed};
ghost use Rattle.c_states.specs.States.{state_of, state_bytes, state_after, SmallState};

use bytes_front::Counts;
use bytes_writer::stores::low;
use c_answers::{pack, store};
use table::{State, Step};

// Of a slice it is known that its bytes are below 256, which bounds the counts and with them the positions.
fn state_in(b: &[u8]) -> State
    requires { length b.now ≡ 16 }
    ensures { (result ≡ state_of b.now) × SmallState result }
{
    let turn = bytes_wire::u16_at(b, 0);
    let position = bytes_wire::u16_at(b, 2);
    let used = bytes_wire::u32_at(b, 8);
    let minor = bytes_wire::u32_at(b, 12);
    State {
        turn: turn as u16,
        position: position as u16,
        hfi: b[4],
        ssns: b[5],
        security: b[6],
        discovery: b[7],
        used,
        minor,
    }
}

// By value they are known to be 16.
pub fn state_of(b: [u8; 16]) -> State
    ensures { (result ≡ state_of b) × SmallState result }
{
    state_in(&b)
}

// The lowest byte first; each division takes one off.
fn state_bytes(s: State) -> [u8; 16]
    ensures { result ≡ state_bytes s }
{
    let turn = s.turn as usize;
    let position = s.position as usize;
    let u0 = s.used;
    let u1 = u0 / 256;
    let u2 = u1 / 256;
    let u3 = u2 / 256;
    let m0 = s.minor;
    let m1 = m0 / 256;
    let m2 = m1 / 256;
    let m3 = m2 / 256;
    [
        low(turn),
        low(turn / 256),
        low(position),
        low(position / 256),
        s.hfi,
        s.ssns,
        s.security,
        s.discovery,
        low(u0),
        low(u1),
        low(u2),
        low(u3),
        low(m0),
        low(m1),
        low(m2),
        low(m3),
    ]
}

pub fn counts_of(b: [u8; 4]) -> Counts
    ensures { result.hfi ∷ result.ssns ∷ result.security ∷ result.discovery ∷ [] ≡ b }
{
    Counts {
        hfi: b[0],
        ssns: b[1],
        security: b[2],
        discovery: b[3],
    }
}

// What a call hands back to C; a refused one leaves the state's bytes as they were.
pub fn show(state: &mut [u8; 16], step: Step) -> u32
    requires { step.answer.position < 256 }
    ensures { (result ≡ packed step.answer) × (state.new ≡ state_after state.old step) }
{
    let answer = step.answer;
    let after = step.state;
    store(state, answer.number, state_bytes(after));
    pack(answer)
}
