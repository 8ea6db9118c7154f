// Whether a heap record shares a byte with another site: for each heap record a walk over the sites before it, and one over those behind it.
ghost use Rattle.std.specs.Prelude.{◌≡◌, ◌<◌};
ghost use Rattle.table.specs.Closing.{overlapped};
ghost use Rattle.reader.specs.Accepted.{Accepted};
ghost use Rattle.closing_laws.specs.Whole.{hits};
ghost use Rattle.closer_sites.specs.Walk.{begun, rest_of, site_of, sites_within};
ghost use Rattle.closer_sites.specs.Going.{Going};
ghost use Rattle.closer_marks.specs.Shared.{shares};

use closer_sites::{END, Named, Walk, first, step};

// More steps than any walk has.
const ALL: usize = 1000000;

// Whether what a step found, if anything, shares a byte with x.
fn is_met(x: Named, found: Named) -> bool
    requires { (x.off < 4294967296) × (x.len < 65536) × (found.off < 4294967296) × (found.len < 65536) }
    ensures { result ≡ hits x.off x.len (site_of found) }
{
    if found.len == 0 {
        return false;
    }
    if x.off + x.len <= found.off {
        return false;
    }
    found.off + found.len > x.off
}

// Whether one of the sites that a walk finds in so many steps shares a byte with x.
fn is_hit(t: &[u8], x: Named, from: Walk, steps: usize) -> bool
    requires { Accepted t.now × Going t.now from × (x.off < 4294967296) × (x.len < 65536) }
    ensures { result ≡ hits x.off x.len (sites_within t.now from steps) }
{
    let mut w = from;
    for _ in 0..steps {
        if w.list == END {
            return false;
        }
        let s = step(t, w);
        if is_met(x, s.named) {
            return true;
        }
        w = s.walk;
    }
    false
}

// Whether a heap record shares a byte with a site of the first steps, or of the walk behind it. Another site is not asked for.
fn is_shared(t: &[u8], x: Named, before: usize, behind: Walk) -> bool
    requires { Accepted t.now × Going t.now behind × (x.off < 4294967296) × (x.len < 65536) }
    ensures { result ≡ shares x (sites_within t.now begun before) (rest_of t.now behind) }
{
    if x.kind == 0 {
        return false;
    }
    if x.len == 0 {
        return false;
    }
    if is_hit(t, x, first(), before) {
        return true;
    }
    is_hit(t, x, behind, ALL)
}

pub fn is_overlapped(t: &[u8]) -> bool
    requires { Accepted t.now }
    ensures { result ≡ overlapped t.now }
{
    let mut w = first();
    let mut i: usize = 0;
    // From state to state; `i` is how many steps lie behind.
    while w.list != END {
        let s = step(t, w);
        if is_shared(t, s.named, i, s.walk) {
            return true;
        }
        w = s.walk;
        i += 1;
    }
    false
}
