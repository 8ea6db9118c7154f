// Objects under the need for them: an ignored one is dropped before any test. Text is told without its terminator and kept with it.
ghost use Rattle.std.specs.Prelude.{◌≡◌, [], length};
ghost use Rattle.table.specs.Bytes.{pick};
ghost use Rattle.table.specs.Layout.{anything, text, are_positions};
ghost use Rattle.table.specs.Objects.{under};
ghost use Rattle.table.specs.Rules.{first_of};
ghost use Rattle.table.specs.Builder.{ended};
ghost use Rattle.laws.specs.TextLaws.{no_zero, bytes_fault, told_fault};
ghost use Rattle.builder_told.specs.Faults.{fault_under};

use bytes_positions::are_positions;
use bytes_text::has_zero;
use table::Need;

// The most bytes that a reference can say.
const LONGEST: usize = 65535;

// What is ignored is empty.
pub fn kept(need: Need, object: &[u8]) -> &[u8]
    ensures { result.now ≡ under need [] object.now }
{
    match need {
        Need::Ignored => &object[0..0],
        Need::Optional => object,
        Need::Required => object,
    }
}

// The bytes of a text as it is kept: an empty one has none.
pub fn ended_len(object: &[u8]) -> usize
    ensures { result ≡ length (ended text object.now) }
{
    let len = object.len();
    if len == 0 {
        return 0;
    }
    len + 1
}

// 11 for what is longer than a reference can say.
fn bytes_fault(object: &[u8]) -> u8
    ensures { result ≡ bytes_fault anything object.now }
{
    if object.len() > LONGEST {
        return 11;
    }
    0
}

// 18 for a zero byte: text is told without its terminator, and has no other.
fn zero_fault(object: &[u8]) -> u8
    ensures { result ≡ pick (no_zero object.now) 0 18 }
{
    if has_zero(object) {
        return 18;
    }
    0
}

// 11 where a reference cannot say the text and its terminator, then 18.
fn text_fault(object: &[u8]) -> u8
    ensures { result ≡ bytes_fault text object.now }
{
    if object.len() >= LONGEST {
        return 11;
    }
    zero_fault(object)
}

// Nothing is asked of what is dropped; what is required must be there. `fault` is that of the `len` bytes by themselves.
fn fault_under(need: Need, len: usize, fault: u8) -> u8
    ensures { result ≡ fault_under need len fault }
{
    match need {
        Need::Ignored => 0,
        Need::Optional => fault,
        Need::Required => if len == 0 { 11 } else { fault },
    }
}

// The fault of an object of any bytes.
pub fn fits(need: Need, object: &[u8]) -> u8
    ensures { result ≡ told_fault need anything object.now }
{
    fault_under(need, object.len(), bytes_fault(object))
}

// The fault of a text.
pub fn fits_text(need: Need, object: &[u8]) -> u8
    ensures { result ≡ told_fault need text object.now }
{
    fault_under(need, object.len(), text_fault(object))
}

// 20 where there are more positions in the list of HFIs than HFIs, or one is there twice.
pub fn positions_fault(object: &[u8], hfis: usize) -> u8
    ensures { result ≡ pick (are_positions hfis object.now) 0 20 }
{
    if !are_positions(object, hfis) {
        return 20;
    }
    0
}

// The first of two faults, 0 where there is none.
pub fn first_of(first: u8, second: u8) -> u8
    ensures { result ≡ first_of first second }
{
    if first != 0 {
        return first;
    }
    second
}
