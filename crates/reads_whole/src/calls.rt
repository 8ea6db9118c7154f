// The reads of any bytes: a table that the check does not accept gives the check's answer; then 16 is tested.
ghost use Rattle.std.specs.Prelude.{◌≡◌, ◌+◌, ◌*◌, ◌≤◌, length, take};
ghost use Rattle.table.specs.Bytes.{splice};
ghost use Rattle.table.specs.Reads.{seat_of, image_at, read_record};
ghost use Rattle.reader.specs.Accepted.{Accepted};
ghost use Rattle.reads_whole.specs.Whole.{entry_after, entries_of, kinds_to, refused_records, records_in, read_records, records_bytes};

use crate::Records;
use crate::entries::put_entry;
use crate::lists::{first_of, left_of, put_kinds};
use reads_seats::seats::seat_of;
use table::Answer;

// The record of a kind and position.
fn record_in(t: &[u8], kind: u8, position: usize, out: &mut [u8]) -> Answer
    requires { Accepted t.now × (length out.old ≡ 184) }
    ensures { (result ≡ (image_at t.now (seat_of t.now kind position)).answer) × (out.new ≡ entry_after t.now kind position result out.old) }
{
    match seat_of(t, kind, position) {
        None => table::refuse(16, 0, 0),
        Some(_) => {
            put_entry(out, t, kind, position);
            table::done()
        }
    }
}

// One record, into an output that its entry fills.
pub fn record(t: &[u8], kind: u8, position: usize, out: &mut [u8]) -> Answer
    requires { length out.old ≡ 184 }
    ensures { (result ≡ (read_record t.now kind position).answer) × (out.new ≡ entry_after t.now kind position result out.old) }
{
    let answer = reader::check(t);
    if answer.number != 0 {
        return answer;
    }
    record_in(t, kind, position, out)
}

fn refused_records(answer: Answer) -> Records
    ensures { result ≡ refused_records answer }
{
    Records {
        answer,
        written: 0,
        total: 0,
    }
}

fn kinds_to(kind: u8, last: u8) -> usize
    requires { kind ≤ 10 }
    ensures { (result ≡ kinds_to kind last) × (kind + result ≤ 11) }
{
    let end = usize::from(last).min(10);
    end.saturating_sub(usize::from(kind)) + 1
}

// The answer of a good table, and where that is 0 the entries.
fn records_in(t: &[u8], kind: u8, position: usize, last: u8, out: &mut [u8]) -> Records
    requires { Accepted t.now }
    ensures value { (result ≡ records_in t.now kind position last (length out.old)) × (out.new ≡ splice out.old 0 (take (184 * result.written) (entries_of t.now kind position (kinds_to kind last)))) }
    ensures written_le_total { (result.written ≤ result.total) × (result.total ≤ 2816) }
{
    if position < first_of(kind) {
        return refused_records(table::refuse(16, 0, 0));
    }
    if left_of(t, kind, position) == 0 {
        return refused_records(table::refuse(16, 0, 0));
    }
    let room = out.len() / 184;
    let kinds = kinds_to(kind, last);
    let told = put_kinds(out, t, kind, position, kinds, room);
    Records {
        answer: table::done(),
        written: told.written,
        total: told.total,
    }
}

// As many records as there is room for, from a kind and position on, through those of kind `last`.
pub fn records(t: &[u8], kind: u8, position: usize, last: u8, out: &mut [u8]) -> Records
    ensures value { (result ≡ read_records t.now kind position last (length out.old)) × (out.new ≡ records_bytes t.now kind position last out.old) }
    ensures written_le_total { (result.written ≤ result.total) × (result.total ≤ 2816) }
{
    let a = reader::check(t);
    if a.number != 0 {
        return refused_records(a);
    }
    records_in(t, kind, position, last, out)
}
