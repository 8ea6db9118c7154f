// The image of a used record of a kind.
ghost use Rattle.std.specs.Prelude.{◌≡◌, true, length};
ghost use Rattle.table.specs.Layout.{base_of};
ghost use Rattle.table.specs.FixedLayouts.{layout_of};
ghost use Rattle.table.specs.Reads.{seat, image_at};
ghost use Rattle.reader.specs.Accepted.{Accepted};
ghost use Rattle.reads_seats.specs.Seats.{Seated};
ghost use Rattle.reads_seats.specs.Told.{bytes_of};

use reads_seats::lent::record_at;

// Into `part`, which it fills.
pub fn image_into(part: &mut [u8], t: &[u8], kind: u8, at: usize)
    requires { Accepted t.now × Seated t.now (layout_of kind) at true × (length part.old ≡ base_of (layout_of kind)) }
    ensures { part.new ≡ bytes_of (image_at t.now (seat (layout_of kind) at true)) }
{
    layout_images::put_image(part, 0, record_at(t, kind, at), kind);
}
