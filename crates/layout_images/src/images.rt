// Images: of a whole record, into lent bytes and by value, and of one field.
ghost use Rattle.std.specs.Prelude.{◌≡◌, ◌+◌, ◌≤◌, length};
ghost use Rattle.table.specs.Bytes.{part, splice, padded};
ghost use Rattle.table.specs.Layout.{base_of};
ghost use Rattle.table.specs.FixedLayouts.{layout_of};
ghost use Rattle.laws.specs.Fields.{image_in};

use crate::masks::{counts_more, counts_newer, masks_of};

// The image of the record of a kind whose bytes are `x`, from byte `d` of `out` on. Bytes and masks lie in rows, so that the compiled loop takes many
// at a time.
pub fn put_image(out: &mut [u8], d: usize, x: &[u8], kind: u8)
    requires { (base_of (layout_of kind) ≤ length x.now) × (d + base_of (layout_of kind) ≤ length out.old) }
    ensures { out.new ≡ splice out.old d (image_in (layout_of kind) x.now 0) }
{
    let masks = masks_of(kind, counts_more(x, kind), counts_newer(x, kind));
    let n = layout_kinds::base_size(kind);
    // An index for three rows, since a zip of them would have to cut each to its part first.
    for i in 0..n {
        out[d + i] = x[i] & masks[i];
    }
}

// The same by value, filled up with zeros.
pub fn image_at(x: &[u8], kind: u8) -> [u8; 128]
    requires { base_of (layout_of kind) ≤ length x.now }
    ensures { result ≡ padded 128 (image_in (layout_of kind) x.now 0) }
{
    let mut out = [0u8; 128];
    put_image(&mut out, 0, x, kind);
    out
}

// `width` bytes of that image from byte `off` on, filled up with zeros.
pub fn field_at(x: &[u8], kind: u8, off: usize, width: usize) -> [u8; 16]
    requires { (base_of (layout_of kind) ≤ length x.now) × (off + width ≤ base_of (layout_of kind)) × (width ≤ 16) }
    ensures { result ≡ padded 16 (part (image_in (layout_of kind) x.now 0) off width) }
{
    let mut out = [0u8; 16];
    let masks = masks_of(kind, counts_more(x, kind), counts_newer(x, kind));
    // An index for three rows, as in put_image.
    for i in 0..width {
        out[i] = x[off + i] & masks[off + i];
    }
    out
}
