// Whether bytes are positions in a list: no more than there are, and none of them twice.
#![tactic(auto)]

ghost use Rattle.std.specs.Prelude.{◌≡◌};
ghost use Rattle.table.specs.Bytes.{once};
ghost use Rattle.table.specs.Layout.{are_positions};

// Whether no byte is there twice: each is marked as it is met, from the last one on.
fn is_once(bytes: &[u8]) -> bool
    ensures { result ≡ once bytes.now }
{
    let mut met = [false; 256];
    for byte in bytes.iter().rev() {
        let value = usize::from(*byte);
        if met[value] {
            return false;
        }
        met[value] = true;
    }
    true
}

// At most `most` of them. A list that is longer is not walked.
pub fn are_positions(bytes: &[u8], most: usize) -> bool
    ensures { result ≡ are_positions most bytes.now }
{
    bytes.len() <= most && is_once(bytes)
}
