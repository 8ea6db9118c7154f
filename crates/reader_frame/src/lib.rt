// Tests 1 to 9: header and control record are read once and then judged.
#![tactic(auto)]

ghost use Rattle.std.specs.Prelude.{◌≡◌, ◌≤◌};
ghost use Rattle.table.specs.Rules.{first_fail};
ghost use Rattle.table.specs.Numbers.{tests};
ghost use Rattle.reader_frame.specs.Tests.{too_short, short_lists, wrong_version, wrong_versions, control_wrong, head_tests};
ghost use Rattle.reader_head.specs.Head.{Narrow};

use reader_head::{Entry, Head};
use reader_order::{judge, size_fault};
use reader_regions::misplaced_regions;
use table::{Answer, SHORTEST};

// 1 where a list that is not empty has records shorter than their kind, else 0. Faults are counted, so that a sum of calls says that there is none.
#[tactic(auto, using(table::proofs::Rules::picks), unfolding(crate::specs::Tests::too_short))]
fn one_short(e: Entry, base: usize) -> usize
    ensures { (result ≡ too_short e base) × (result ≤ 1) }
{
    if e.count != 0 && e.step < base { 1 } else { 0 }
}

fn short_lists(h: Head) -> usize
    ensures { (result ≡ short_lists h) × (result ≤ 4) }
{
    one_short(h.hfi, table::Hfi::SIZE)
        + one_short(h.ssns, table::Ssns::SIZE)
        + one_short(h.security, table::Security::SIZE)
        + one_short(h.discovery, table::Discovery::SIZE)
}

// The version of an empty list is not looked at.
#[tactic(auto, using(table::proofs::Rules::picks), unfolding(crate::specs::Tests::wrong_version))]
fn one_wrong_version(e: Entry) -> usize
    ensures { (result ≡ wrong_version e) × (result ≤ 1) }
{
    if e.count != 0 && e.version != 1 { 1 } else { 0 }
}

fn wrong_versions(h: Head) -> usize
    ensures { (result ≡ wrong_versions h) × (result ≤ 4) }
{
    one_wrong_version(h.hfi)
        + one_wrong_version(h.ssns)
        + one_wrong_version(h.security)
        + one_wrong_version(h.discovery)
}

// 1 where test 7 finds the control record wrong. It follows the header and is CSL bytes long; regions are held against its end.
#[tactic(auto, using(table::proofs::Rules::picks), unfolding(crate::specs::Tests::control_wrong))]
fn control_wrong(h: Head) -> usize
    requires { Narrow h }
    ensures { (result ≡ control_wrong h) × (result ≤ 1) }
{
    let right = h.controlid == table::Control::ID
        && h.controlmajor == 1
        && table::Control::SIZE <= h.csl
        && table::Header::SIZE + h.csl <= h.size
        && h.flags % 2 == 1;
    if right { 0 } else { 1 }
}

fn head_fault(h: Head) -> Answer
    requires { Narrow h }
    ensures { result ≡ first_fail (head_tests h) }
{
    let control = control_wrong(h);
    let short = short_lists(h);
    let misplaced = misplaced_regions(h);
    let wrong = wrong_versions(h);
    judge(
        h.major,
        control,
        h.host.len,
        short,
        misplaced,
        h.hostversion,
        wrong,
    )
}

// Tests 1 to 9. Done here says that header, control record and all regions lie where they say, so that records can be read.
pub fn frame_fault(t: &[u8]) -> Answer
    ensures { result ≡ first_fail (tests t.now) }
{
    if t.len() < SHORTEST {
        return table::refuse(1, 0, 0);
    }
    let h = reader_head::head_of(t);
    let size = h.size;
    let a = size_fault(h.signature, size, t.len());
    if a.number != 0 {
        return a;
    }
    if bytes_wire::sum8(&t[..size]) != 0 {
        return table::refuse(5, 0, 0);
    }
    head_fault(h)
}
