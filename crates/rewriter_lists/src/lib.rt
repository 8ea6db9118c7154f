// The lists of the accepted table `t` laid anew in `out`, one behind the other from `place` on; what they name is laid from `next` on, where the heap
// goes on.
#![tactic(auto)]

ghost use Rattle.std.specs.Prelude.{◌≡◌, ◌+◌, ◌*◌, ◌≤◌, length};
ghost use Rattle.table.specs.Layout.{base_of};
ghost use Rattle.table.specs.FixedLayouts.{layout_of};
ghost use Rattle.table.specs.Objects.{size_list, recs_list, heap_list, size_body, span_body, recs_body, heap_body};
ghost use Rattle.table.specs.Meaning.{meaning};
ghost use Rattle.reader.specs.Accepted.{Accepted};
ghost use Rattle.reads_seats.specs.Told.{count_of};
ghost use Rattle.rewriter_sizes.specs.Parts.{list_of};
ghost use Rattle.rewriter_objects.specs.Laid.{laid};

use reads_by_seat::counts::count_of;
use rewriter_records::lay_position;
use rewriter_sizes::sizes::list_span;
use table::{Discovery, Hfi, Security, Ssns};

// The list of a kind; where the heap goes on then.
pub fn lay_list(out: &mut [u8], place: usize, next: usize, t: &[u8], kind: u8) -> usize
    requires accepted { Accepted t.now }
    requires kind_bound { (place + count_of t.now kind * base_of (layout_of kind) ≤ next) × (next + size_list (list_of t.now kind) ≤ length out.old) }
    ensures { (result ≡ next + size_list (list_of t.now kind)) × (out.new ≡ laid out.old place (recs_list next (list_of t.now kind)) next (heap_list next (list_of t.now kind))) }
{
    let count = count_of(t, kind);
    let base = layout_kinds::base_size(kind);
    let mut at = place;
    let mut cursor = next;
    for position in 1..=count {
        cursor = lay_position(out, at, cursor, t, kind, position);
        at += base;
    }
    cursor
}

// The four lists.
pub fn lay_lists(out: &mut [u8], place: usize, next: usize, t: &[u8])
    requires accepted { Accepted t.now }
    requires t_bound { (place + span_body (meaning t.now).lists ≤ next) × (next + size_body (meaning t.now).lists ≤ length out.old) }
    ensures { out.new ≡ laid out.old place (recs_body next (meaning t.now).lists) next (heap_body next (meaning t.now).lists) }
{
    let ssns = place + list_span(t, Hfi::ID);
    let security = ssns + list_span(t, Ssns::ID);
    let discovery = security + list_span(t, Security::ID);
    let ssns_next = lay_list(out, place, next, t, Hfi::ID);
    let security_next = lay_list(out, ssns, ssns_next, t, Ssns::ID);
    let discovery_next = lay_list(out, security, security_next, t, Security::ID);
    lay_list(out, discovery, discovery_next, t, Discovery::ID);
}
