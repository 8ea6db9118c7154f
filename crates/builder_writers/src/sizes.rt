// What the references of a record take.
ghost use Rattle.std.specs.Prelude.{◌≡◌, [], ◌∷◌, ◌+◌, ◌≤◌};

use bytes_writer::records::Sizes;

// Objects alone: each takes its length.
pub fn plain_sizes(
    first: usize,
    second: usize,
    third: usize,
    fourth: usize,
    fifth: usize,
    sixth: usize,
) -> Sizes
    requires { (first ≤ 65535) × (second ≤ 65535) × (third ≤ 65535) × (fourth ≤ 65535) × (fifth ≤ 65535) × (sixth ≤ 65535) }
    ensures { (result.len ≡ first ∷ second ∷ third ∷ fourth ∷ fifth ∷ sixth ∷ []) × (result.span ≡ first ∷ second ∷ third ∷ fourth ∷ fifth ∷ sixth ∷ []) }
{
    Sizes {
        len: [first, second, third, fourth, fifth, sixth],
        span: [
            first as u32,
            second as u32,
            third as u32,
            fourth as u32,
            fifth as u32,
            sixth as u32,
        ],
    }
}

// Four objects, then a heap record of `inner` bytes with its own object of `object` bytes.
pub fn nested_sizes(
    first: usize,
    second: usize,
    third: usize,
    fourth: usize,
    inner: usize,
    object: usize,
) -> Sizes
    requires { (first ≤ 65535) × (second ≤ 65535) × (third ≤ 65535) × (fourth ≤ 65535) × (inner ≤ 128) × (object ≤ 65535) }
    ensures { (result.len ≡ first ∷ second ∷ third ∷ fourth ∷ inner ∷ 0 ∷ []) × (result.span ≡ first ∷ second ∷ third ∷ fourth ∷ (inner + object) ∷ 0 ∷ []) }
{
    Sizes {
        len: [first, second, third, fourth, inner, 0],
        span: [
            first as u32,
            second as u32,
            third as u32,
            fourth as u32,
            (inner + object) as u32,
            0,
        ],
    }
}

// A heap record of `inner` bytes alone, with what it names, `object` bytes.
pub fn only_nested(inner: usize, object: usize) -> Sizes
    requires { (inner ≤ 128) × (object ≤ 65535) }
    ensures { (result.len ≡ inner ∷ 0 ∷ 0 ∷ 0 ∷ 0 ∷ 0 ∷ []) × (result.span ≡ (inner + object) ∷ 0 ∷ 0 ∷ 0 ∷ 0 ∷ 0 ∷ []) }
{
    Sizes {
        len: [inner, 0, 0, 0, 0, 0],
        span: [(inner + object) as u32, 0, 0, 0, 0, 0],
    }
}

// An object, then a heap record of `inner` bytes that takes `span` with its own objects.
pub fn object_then_nested(first: usize, inner: usize, span: usize) -> Sizes
    requires { (first ≤ 65535) × (span ≤ 131072) }
    ensures { (result.len ≡ first ∷ inner ∷ 0 ∷ 0 ∷ 0 ∷ 0 ∷ []) × (result.span ≡ first ∷ span ∷ 0 ∷ 0 ∷ 0 ∷ 0 ∷ []) }
{
    Sizes {
        len: [first, inner, 0, 0, 0, 0],
        span: [first as u32, span as u32, 0, 0, 0, 0],
    }
}
