// The builder's states: whose turn it is, where its record stands, and which state comes behind it. Any state may be handed in, forged ones too.
#![tactic(auto)]

ghost use Rattle.std.specs.Prelude.{◌≡◌, true, [], ◌∷◌, ◌+◌, ◌≤◌, eqb};
ghost use Rattle.table.specs.Bytes.{pick};
ghost use Rattle.table.specs.Layout.{base_of};
ghost use Rattle.table.specs.FixedLayouts.{layout_of, list_kinds};
ghost use Rattle.table.specs.Meaning.{limit};
ghost use Rattle.table.specs.Builder.{counts, count_of, records_end, start_of, turn, first_turn, moved, in_list};
ghost use Rattle.table.specs.Builder as definition;
ghost use Rattle.builder_state.specs.Turns.{in_place, later_turn};

use table::{Discovery, FRONT, Hfi, Host, LIMIT, SHORTEST, Security, Ssns, State};

// A state's turn is the kind of the record that it waits for, or one of two more.
const HOST: u16 = Host::ID as u16;

const HFI: u16 = Hfi::ID as u16;

const SSNS: u16 = Ssns::ID as u16;

const SECURITY: u16 = Security::ID as u16;

const DISCOVERY: u16 = Discovery::ID as u16;

pub const FINISHING: u16 = 7;

const FINISHED: u16 = 8;

// The highest header minor that a record can ask for.
const NEWEST_MINOR: usize = 1;

// How many records there are to be of a kind.
pub fn count_of(state: State, kind: u16) -> usize
    ensures { (result ≡ count_of list_kinds (counts state) kind) × (result ≤ 255) }
{
    match kind {
        HFI => state.hfi as usize,
        SSNS => state.ssns as usize,
        SECURITY => state.security as usize,
        DISCOVERY => state.discovery as usize,
        _ => 0,
    }
}

// The first byte behind the records.
pub fn records_end(state: State) -> usize
    ensures { (result ≡ records_end state) × (160 ≤ result) × (result ≤ 65440) }
{
    SHORTEST
        + (state.hfi as usize) * Hfi::SIZE
        + (state.ssns as usize) * Ssns::SIZE
        + (state.security as usize) * Security::SIZE
        + (state.discovery as usize) * Discovery::SIZE
}

// The position is one of the list whose turn it is.
fn in_list(state: State) -> bool
    ensures { result ≡ in_list state }
{
    let position = state.position as usize;
    if position < 1 {
        return false;
    }
    position <= count_of(state, state.turn)
}

// Host and finish have no position.
fn in_place(state: State, kind: u16) -> bool
    ensures { result ≡ in_place state kind }
{
    if kind == HOST {
        return state.position == 0;
    }
    if kind == FINISHING {
        return state.position == 0;
    }
    in_list(state)
}

// Whether this is a possible begun state that waits for a record of a kind, or (7) for finish.
pub fn waits(state: State, kind: u16) -> bool
    ensures { result ≡ definition.waits state kind }
{
    if state.turn != kind {
        return false;
    }
    if !in_place(state, kind) {
        return false;
    }
    if state.used < records_end(state) {
        return false;
    }
    if LIMIT < state.used {
        return false;
    }
    state.minor <= NEWEST_MINOR
}

// The kind of the first list that is not empty, or finish.
fn first_list(hfi: u8, ssns: u8, security: u8, discovery: u8) -> u16
    ensures { turn result (pick (eqb result 7) 0 1) ≡ first_turn list_kinds (hfi ∷ ssns ∷ security ∷ discovery ∷ []) }
{
    if hfi != 0 {
        return HFI;
    }
    if ssns != 0 {
        return SSNS;
    }
    if security != 0 {
        return SECURITY;
    }
    if discovery != 0 {
        return DISCOVERY;
    }
    FINISHING
}

// The same of the lists behind the one whose turn it is.
fn later_list(state: State) -> u16
    ensures { turn result (pick (eqb result 7) 0 1) ≡ later_turn state }
{
    let turn = state.turn;
    match turn {
        HOST => first_list(state.hfi, state.ssns, state.security, state.discovery),
        HFI => first_list(0, state.ssns, state.security, state.discovery),
        SSNS => first_list(0, 0, state.security, state.discovery),
        SECURITY => first_list(0, 0, 0, state.discovery),
        _ => FINISHING,
    }
}

fn moved_to(state: State, kind: u16, position: u16, used: usize, minor: usize) -> State
    ensures { result ≡ moved state (turn kind position) used minor }
{
    State {
        turn: kind,
        position,
        used,
        minor,
        ..state
    }
}

// The header minor behind a call for a record that asks for the newest or for none: once asked for, it stays.
fn minor_behind(state: State, newer: bool) -> usize
    ensures { result ≡ pick newer 1 state.minor }
{
    if newer {
        return NEWEST_MINOR;
    }
    state.minor
}

// The state behind a done call that wrote `written` bytes of objects and heap records; `newer` says that its record asks for the newest header minor.
pub fn next(state: State, written: usize, newer: bool) -> State
    requires { state.used + written ≤ limit }
    ensures { result ≡ definition.next state written newer }
{
    let used = state.used + written;
    let minor = minor_behind(state, newer);
    if (state.position as usize) < count_of(state, state.turn) {
        return moved_to(state, state.turn, state.position + 1, used, minor);
    }
    let kind = later_list(state);
    if kind == FINISHING {
        return moved_to(state, FINISHING, 0, used, minor);
    }
    moved_to(state, kind, 1, used, minor)
}

// The finished state.
pub fn finished(state: State) -> State
    ensures { result ≡ moved state (turn definition.finished 0) state.used state.minor }
{
    moved_to(state, FINISHED, 0, state.used, state.minor)
}

// Where the first record of a list stands.
fn list_start(state: State, kind: u8) -> usize
    ensures { (result ≡ start_of 160 list_kinds (counts state) kind) × (result ≤ 65440) }
{
    let hfi = SHORTEST;
    let ssns = hfi + (state.hfi as usize) * Hfi::SIZE;
    let security = ssns + (state.ssns as usize) * Ssns::SIZE;
    let discovery = security + (state.security as usize) * Security::SIZE;
    match kind {
        Hfi::ID => hfi,
        Ssns::ID => ssns,
        Security::ID => security,
        Discovery::ID => discovery,
        _ => discovery + (state.discovery as usize) * Discovery::SIZE,
    }
}

// Where the record of a kind stands whose turn it is.
pub fn place_of(state: State, kind: u8) -> usize
    requires { (2 ≤ kind) × (kind ≤ 6) × (definition.waits state kind ≡ true) }
    ensures { (result ≡ definition.place_of state (layout_of kind)) × (result + base_of (layout_of kind) ≤ records_end state) }
{
    if kind == Host::ID {
        return FRONT;
    }
    let i = (state.position as usize) - 1;
    let start = list_start(state, kind);
    match kind {
        Hfi::ID => start + i * Hfi::SIZE,
        Ssns::ID => start + i * Ssns::SIZE,
        Security::ID => start + i * Security::SIZE,
        _ => start + i * Discovery::SIZE,
    }
}
