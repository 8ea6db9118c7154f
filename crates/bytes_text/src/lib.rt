// Whether bytes are text: exactly one of them is zero, the last.
#![tactic(auto)]

ghost use Rattle.std.specs.Prelude.{◌≡◌, not, ◌+◌, ◌≤◌, length};
ghost use Rattle.table.specs.Layout.{is_text};
ghost use Rattle.laws.specs.TextLaws.{no_zero};

// As many bytes as the compiler compares at once, and as many as are looked at in a turn.
const FEW: usize = 16;

const BLOCK: usize = 32;

// Whether one of the bytes is zero. The loop has no way out before its end, as `contains` and `any` have: so a block of known length is compared
// at once.
pub fn has_zero(bytes: &[u8]) -> bool
    ensures { result ≡ not (no_zero bytes.now) }
{
    let mut seen = false;
    for byte in bytes {
        seen |= *byte == 0;
    }
    seen
}

// Whether one of the bytes is zero, by the first `count` and the last: these are all, some of them twice.
fn zero_at_ends(bytes: &[u8], count: usize) -> bool
    requires { (count ≤ length bytes.now) × (length bytes.now ≤ count + count) }
    ensures { result ≡ not (no_zero bytes.now) }
{
    let len = bytes.len();
    has_zero(&bytes[..count]) || has_zero(&bytes[len - count..])
}

// Whether one of the bytes is zero, a block at a time.
fn zero_by_blocks(bytes: &[u8]) -> bool
    ensures { result ≡ not (no_zero bytes.now) }
{
    let len = bytes.len();
    if len < FEW {
        return has_zero(bytes);
    }
    if len < BLOCK {
        return zero_at_ends(bytes, FEW);
    }
    for block in bytes.chunks_exact(BLOCK) {
        if has_zero(block) {
            return true;
        }
    }
    // Less than a block is left: the last one shares bytes with the one before it.
    has_zero(&bytes[len - BLOCK..])
}

// The last byte is looked at first: most bytes that are no text are known by it.
pub fn is_text(bytes: &[u8]) -> bool
    ensures { result ≡ is_text bytes.now }
{
    match bytes.split_last() {
        Some((last, front)) => *last == 0 && !zero_by_blocks(front),
        None => false,
    }
}
