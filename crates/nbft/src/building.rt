// The builder for callers in C, who keep its state as 16 bytes.
ghost use Rattle.std.specs.Prelude.{not, eqb};
ghost use Rattle.table.specs.Builder as definition;
ghost use Rattle.builder_record.specs.Calls.{tell_host, tell_hfi, tell_ssns, tell_security, tell_discovery};
ghost use Rattle.builder_begin.specs.Begins.{begin_with};
ghost use Rattle.c_states.specs.States.{state_of, Shown};

use c_states::{counts_of, show, state_of};
use table::{Discovery, Extended, Hfi, HfiExtended, Host, Info, Security, Ssns};

// `header` is the table's bytes 10 to 35, `counts` how many records each list is to have.
#[unsafe(no_mangle)]
pub extern "C" fn nbft_begin(
    state: &mut [u8; 16],
    out: &mut [u8],
    header: &[u8; 26],
    counts: &[u8; 4],
    signature: &[u8],
) -> u32
    ensures { Shown (begin_with (state_of state.old) out.old header.now counts.now signature.now) state.old result state.new out.new }
{
    let before = *state;
    let oem = *header;
    let each = *counts;
    let step = builder::begin(out, state_of(before), oem, counts_of(each), signature);
    show(state, step)
}

#[unsafe(no_mangle)]
pub extern "C" fn nbft_host(
    state: &mut [u8; 16],
    out: &mut [u8],
    told: &[u8; 32],
    nqn: &[u8],
) -> u32
    ensures { Shown (tell_host (state_of state.old) out.old told.now nqn.now) state.old result state.new out.new }
{
    let before = *state;
    let bytes = *told;
    let step = builder::host(out, state_of(before), Host { bytes }, nqn);
    show(state, step)
}

// `info` is the HFI's transport info, which names the host name and, under version 2, the HFI extended info: it is told where `extended_told` is not 0.
#[unsafe(no_mangle)]
pub extern "C" fn nbft_hfi(
    state: &mut [u8; 16],
    out: &mut [u8],
    told: &[u8; 32],
    info: &[u8; 128],
    name: &[u8],
    extended_told: u8,
    extended: &[u8; 20],
    iaid: &[u8],
    duid: &[u8],
) -> u32
    ensures { Shown (tell_hfi (state_of state.old) out.old told.now info.now name.now (not (eqb extended_told 0)) extended.now iaid.now duid.now) state.old result state.new out.new }
{
    let before = *state;
    let bytes = *told;
    let own = *info;
    let identity = *extended;
    let step = builder::hfi(
        out,
        state_of(before),
        Hfi { bytes },
        Info { bytes: own },
        name,
        extended_told != 0,
        HfiExtended { bytes: identity },
        iaid,
        duid,
    );
    show(state, step)
}

// `extended` is the record's extended info, which names the DHCP root path.
#[unsafe(no_mangle)]
pub extern "C" fn nbft_ssns(
    state: &mut [u8; 16],
    out: &mut [u8],
    told: &[u8; 128],
    address: &[u8],
    service: &[u8],
    others: &[u8],
    nqn: &[u8],
    extended: &[u8; 18],
    path: &[u8],
) -> u32
    ensures { Shown (tell_ssns (state_of state.old) out.old told.now address.now service.now others.now nqn.now extended.now path.now) state.old result state.new out.new }
{
    let before = *state;
    let bytes = *told;
    let own = *extended;
    let step = builder::ssns(
        out,
        state_of(before),
        Ssns { bytes },
        address,
        service,
        others,
        nqn,
        Extended { bytes: own },
        path,
    );
    show(state, step)
}

#[unsafe(no_mangle)]
pub extern "C" fn nbft_security(
    state: &mut [u8; 16],
    out: &mut [u8],
    told: &[u8; 64],
    algorithms: &[u8],
    protocols: &[u8],
    ciphers: &[u8],
    groups: &[u8],
    hashes: &[u8],
    keypath: &[u8],
) -> u32
    ensures { Shown (tell_security (state_of state.old) out.old told.now algorithms.now protocols.now ciphers.now groups.now hashes.now keypath.now) state.old result state.new out.new }
{
    let before = *state;
    let bytes = *told;
    let x = Security { bytes };
    let step = builder::security(
        out,
        state_of(before),
        x,
        algorithms,
        protocols,
        ciphers,
        groups,
        hashes,
        keypath,
    );
    show(state, step)
}

#[unsafe(no_mangle)]
pub extern "C" fn nbft_discovery(
    state: &mut [u8; 16],
    out: &mut [u8],
    told: &[u8; 32],
    address: &[u8],
    nqn: &[u8],
) -> u32
    ensures { Shown (tell_discovery (state_of state.old) out.old told.now address.now nqn.now) state.old result state.new out.new }
{
    let before = *state;
    let bytes = *told;
    let x = Discovery { bytes };
    let step = builder::discovery(out, state_of(before), x, address, nqn);
    show(state, step)
}

#[unsafe(no_mangle)]
pub extern "C" fn nbft_leave(state: &mut [u8; 16], out: &mut [u8]) -> u32
    ensures { Shown (definition.leave (state_of state.old) out.old) state.old result state.new out.new }
{
    let before = *state;
    let step = builder::leave(out, state_of(before));
    show(state, step)
}

#[unsafe(no_mangle)]
pub extern "C" fn nbft_finish(state: &mut [u8; 16], out: &mut [u8]) -> u32
    ensures { Shown (definition.finish (state_of state.old) out.old) state.old result state.new out.new }
{
    let before = *state;
    let step = builder::finish(out, state_of(before));
    show(state, step)
}
