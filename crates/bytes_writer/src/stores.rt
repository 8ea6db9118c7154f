// Stores into lent bytes: each contract says that the bytes are as before but for one part.
ghost use Rattle.std.specs.Prelude.{◌≡◌, [], ◌∷◌, ◌+◌, ◌%◌, ◌≤◌, ◌<◌, length, replicate};
ghost use Rattle.table.specs.Bytes.{le, splice};
ghost use Rattle.table.specs.Objects.{ref6};

// The lowest byte of a number.
pub fn low(value: usize) -> u8
    ensures { result ≡ value % 256 }
{
    (value % 256) as u8
}

pub fn put_u8(part: &mut [u8], at: usize, value: u8)
    requires { at + 1 ≤ length part.old }
    ensures { part.new ≡ splice part.old at (value ∷ []) }
{
    part[at] = value;
}

pub fn put_u16(part: &mut [u8], at: usize, value: usize)
    requires { at + 2 ≤ length part.old }
    ensures { part.new ≡ splice part.old at (le 2 value) }
{
    part[at] = low(value);
    part[at + 1] = low(value / 256);
}

pub fn put_u32(part: &mut [u8], at: usize, value: usize)
    requires { at + 4 ≤ length part.old }
    ensures { part.new ≡ splice part.old at (le 4 value) }
{
    put_u16(part, at, value);
    put_u16(part, at + 2, value / 256 / 256);
}

// The six bytes of a reference to `len` bytes at `target`.
pub fn put_ref(part: &mut [u8], at: usize, target: usize, len: usize)
    requires { at + 6 ≤ length part.old }
    ensures { part.new ≡ splice part.old at (ref6 target len) }
{
    put_u32(part, at, target);
    put_u16(part, at + 4, len);
}

// By an index: `copy_from_slice` compiles to a call of `memmove`, which firmware that links the library need not have.
pub fn copy_into(out: &mut [u8], at: usize, src: &[u8])
    requires { at + length src.now ≤ length out.old }
    ensures { out.new ≡ splice out.old at src.now }
{
    for i in 0..src.len() {
        out[at + i] = src[i];
    }
}

// Compiles to one fill of memory.
pub fn fill_zero(out: &mut [u8], at: usize, count: usize)
    requires { at + count ≤ length out.old }
    ensures { out.new ≡ splice out.old at (replicate count 0) }
{
    out[at..at + count].fill(0);
}
