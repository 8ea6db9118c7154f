// A writer for each kind of record, lent the record's own part of the output. What is told of a record stands in `told`, as long as a record of that kind;
// the objects that it names stand from `heap` on, one behind the other, and a writer is told how long they are.
#![tactic(auto)]

ghost use Rattle.std.specs.Prelude.{◌≡◌, [], ◌∷◌, ◌+◌, ◌≤◌, length};
ghost use Rattle.table.specs.Layout.{base_of};
ghost use Rattle.table.specs.FixedLayouts.{layout_of, host, hfi, ssns, security, discovery, info, extended, hfi_extended};
ghost use Rattle.builder_writers.specs.Written.{Lent, Narrow, record_with};

use crate::sizes::{nested_sizes, object_then_nested, only_nested, plain_sizes};
use bytes_writer::records::{Sizes, put_refs};
use table::{Discovery, Extended, Hfi, HfiExtended, Host, Info, Security, Ssns};

pub mod sizes; // what the references of a record take

// What the writers share: the image of what is told, and the references by the kind's table of offsets.
fn write_record(part: &mut [u8], kind: u8, told: &[u8], heap: usize, sizes: Sizes)
    requires { Lent (layout_of kind) part.old told.now heap × Narrow sizes.span }
    ensures { part.new ≡ record_with (layout_of kind) told.now heap sizes.len sizes.span }
{
    layout_images::put_image(part, 0, told, kind);
    put_refs(part, layout_kinds::reference_offsets(kind), sizes, heap);
}

pub fn write_host(part: &mut [u8], told: &[u8], heap: usize, nqn: usize)
    requires { Lent host part.old told.now heap × (nqn ≤ 65535) }
    ensures { part.new ≡ record_with host told.now heap (nqn ∷ []) (nqn ∷ []) }
{
    write_record(part, Host::ID, told, heap, plain_sizes(nqn, 0, 0, 0, 0, 0));
}

// The transport info stands first in the heap, with what it names behind it.
pub fn write_hfi(part: &mut [u8], told: &[u8], heap: usize, named: usize)
    requires { Lent hfi part.old told.now heap × (named ≤ 65535) }
    ensures { part.new ≡ record_with hfi told.now heap (base_of info ∷ []) ((base_of info + named) ∷ []) }
{
    write_record(part, Hfi::ID, told, heap, only_nested(Info::SIZE, named));
}

// Behind four objects the extended info, which may have no bytes, with its root path.
pub fn write_ssns(
    part: &mut [u8],
    told: &[u8],
    heap: usize,
    address: usize,
    service: usize,
    others: usize,
    nqn: usize,
    extended: usize,
    path: usize,
)
    requires { Lent ssns part.old told.now heap × (address ≤ 65535) × (service ≤ 65535) × (others ≤ 65535) × (nqn ≤ 65535) × (extended ≤ 128) × (path ≤ 65535) }
    ensures { part.new ≡ record_with ssns told.now heap (address ∷ service ∷ others ∷ nqn ∷ extended ∷ []) (address ∷ service ∷ others ∷ nqn ∷ (extended + path) ∷ []) }
{
    let sizes = nested_sizes(address, service, others, nqn, extended, path);
    write_record(part, Ssns::ID, told, heap, sizes);
}

// Six objects, in the order of their references.
pub fn write_security(
    part: &mut [u8],
    told: &[u8],
    heap: usize,
    algorithms: usize,
    protocols: usize,
    ciphers: usize,
    groups: usize,
    hashes: usize,
    keypath: usize,
)
    requires { Lent security part.old told.now heap × (algorithms ≤ 65535) × (protocols ≤ 65535) × (ciphers ≤ 65535) × (groups ≤ 65535) × (hashes ≤ 65535) × (keypath ≤ 65535) }
    ensures { part.new ≡ record_with security told.now heap (algorithms ∷ protocols ∷ ciphers ∷ groups ∷ hashes ∷ keypath ∷ []) (algorithms ∷ protocols ∷ ciphers ∷ groups ∷ hashes ∷ keypath ∷ []) }
{
    let sizes = plain_sizes(algorithms, protocols, ciphers, groups, hashes, keypath);
    write_record(part, Security::ID, told, heap, sizes);
}

pub fn write_discovery(part: &mut [u8], told: &[u8], heap: usize, address: usize, nqn: usize)
    requires { Lent discovery part.old told.now heap × (address ≤ 65535) × (nqn ≤ 65535) }
    ensures { part.new ≡ record_with discovery told.now heap (address ∷ nqn ∷ []) (address ∷ nqn ∷ []) }
{
    write_record(
        part,
        Discovery::ID,
        told,
        heap,
        plain_sizes(address, nqn, 0, 0, 0, 0),
    );
}

// Transport info, in the heap: its host name, then an HFI extended info of `extended` bytes, none where it is not told, which takes `span` with its own
// objects.
pub fn write_info(
    part: &mut [u8],
    told: &[u8],
    heap: usize,
    name: usize,
    extended: usize,
    span: usize,
)
    requires { Lent info part.old told.now heap × (name ≤ 65535) × (span ≤ 131072) }
    ensures { part.new ≡ record_with info told.now heap (name ∷ extended ∷ []) (name ∷ span ∷ []) }
{
    write_record(
        part,
        Info::ID,
        told,
        heap,
        object_then_nested(name, extended, span),
    );
}

// HFI extended info, in the heap.
pub fn write_hfi_extended(part: &mut [u8], told: &[u8], heap: usize, iaid: usize, duid: usize)
    requires { Lent hfi_extended part.old told.now heap × (iaid ≤ 65535) × (duid ≤ 65535) }
    ensures { part.new ≡ record_with hfi_extended told.now heap (iaid ∷ duid ∷ []) (iaid ∷ duid ∷ []) }
{
    write_record(
        part,
        HfiExtended::ID,
        told,
        heap,
        plain_sizes(iaid, duid, 0, 0, 0, 0),
    );
}

// Extended info, in the heap.
pub fn write_extended(part: &mut [u8], told: &[u8], heap: usize, path: usize)
    requires { Lent extended part.old told.now heap × (path ≤ 65535) }
    ensures { part.new ≡ record_with extended told.now heap (path ∷ []) (path ∷ []) }
{
    write_record(
        part,
        Extended::ID,
        told,
        heap,
        plain_sizes(path, 0, 0, 0, 0, 0),
    );
}
