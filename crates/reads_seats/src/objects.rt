// The object of a reference of a record, by the record's own bytes: where it stands.
ghost use Rattle.std.specs.Prelude.{◌≡◌, true, ◌+◌, ◌≤◌, length};
ghost use Rattle.table.specs.Layout.{base_of};
ghost use Rattle.table.specs.FixedLayouts.{layout_of};
ghost use Rattle.table.specs.Objects.{under};
ghost use Rattle.table.specs.Rules as answers;
ghost use Rattle.table.specs.Reads.{seat, has_plain, need_at, no_place, ref_place, whole_at};
ghost use Rattle.laws.specs.Fields.{image_in};

use table::{Answer, HfiExtended, Need, Place, Security, Ssns};

// None, with the answer that says why.
pub fn no_place(answer: Answer) -> Place
    ensures { result ≡ no_place answer }
{
    Place {
        answer,
        present: false,
        at: 0,
        len: 0,
    }
}

// What a reference of the record with these bytes names.
fn ref_place(bytes: &[u8], offset: usize) -> Place
    requires { offset + 6 ≤ length bytes.now }
    ensures { result ≡ ref_place bytes.now offset }
{
    let named = bytes_wire::reference_at(bytes, offset);
    let answer = table::done();
    let at = named.at;
    let len = named.len;
    if len == 0 {
        return no_place(answer);
    }
    Place {
        answer,
        present: true,
        at,
        len,
    }
}

fn named_place(bytes: &[u8], offset: usize, need: Need) -> Place
    requires { offset + 6 ≤ length bytes.now }
    ensures { result ≡ under need (no_place answers.done) (ref_place bytes.now offset) }
{
    match need {
        Need::Ignored => no_place(table::done()),
        Need::Optional | Need::Required => ref_place(bytes, offset),
    }
}

// Whether a reference of the record of a kind counts.
fn object_need(bytes: &[u8], kind: u8, offset: usize) -> Need
    requires { (base_of (layout_of kind) ≤ length bytes.now) × (has_plain offset (layout_of kind).refs ≡ true) }
    ensures { result ≡ need_at offset (layout_of kind).refs (image_in (layout_of kind) bytes.now 0) }
{
    match kind {
        Ssns::ID => layout_needs::ssns_need(layout_flags::ssns_flags(bytes, 0), offset),
        Security::ID => layout_needs::security_need(bytes, 0, offset),
        HfiExtended::ID => layout_needs::identity_need(bytes, offset),
        _ => layout_needs::plain_need(kind, offset),
    }
}

// Where the object of that reference stands. An unused record has none.
pub fn object_of(bytes: &[u8], kind: u8, used: bool, offset: usize) -> Place
    requires { (base_of (layout_of kind) ≤ length bytes.now) × (has_plain offset (layout_of kind).refs ≡ true) }
    ensures { result ≡ whole_at bytes.now offset (seat (layout_of kind) 0 used) }
{
    if used {
        return named_place(bytes, offset, object_need(bytes, kind, offset));
    }
    no_place(table::done())
}
