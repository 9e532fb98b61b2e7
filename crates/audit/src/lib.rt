// The audit of a bundle: a line a sample, and a tally.
#![tactic(auto)]

ghost use Rattle.std.specs.Prelude.{◌≡◌, ◌++◌, ◌+◌, ◌*◌, ◌≤◌, ◌<◌, length};
ghost use Rattle.words.specs.Refusals.{refused, ok};
ghost use Rattle.words.specs.Bytes.{bytes};
ghost use Rattle.words.specs.Buffers.{put, overwrite, within, Wrote};
ghost use Rattle.bundles.specs.Limits.{bundle_most};
ghost use Rattle.bundles.specs.Recordings.{sample_count};
ghost use Rattle.bundles.specs.Readers.{first_layout};
ghost use Rattle.tables.specs.Tables.{recording_in, table_most};
ghost use Rattle.numbers.specs.Places.{place_size};
ghost use Rattle.audit_rules.specs.Auditing.{refusal_size, units_size, line_size, line_bytes, outcome_of, line_of, lines, tally, tally_within, audit_call, tally_call};
ghost use Rattle.audit.specs.Steps.{verdict_of, units_in, outcome_in, JudgementsKept, kept_lines};
ghost use Rattle.audit.specs.Answers.{lines_answer, tally_answer};

use audit_lines::{LINE_SIZE, REFUSAL_SIZE, UNITS_SIZE};
use numbers::{ByteOffset, Fault, PLACE_SIZE, Refusal, SampleNumber};
use tally::{Outcome, Tally};

// How many bytes of lines are written, and the tally.
#[derive(Clone, Copy)]
pub struct Report {
    pub count: usize,
    pub tally: Tally,
}

// The three numbers of a line over a buffer that has room.
fn put_numbers(out: &mut [u8], at: usize, refusal: u8, place: ByteOffset, units: usize)
    requires { at + line_size ≤ length out.old }
    ensures { out.new ≡ put out.old at (bytes refusal_size refusal ++ bytes place_size place.0 ++ bytes units_size units) }
{
    numbers::put_number(out, at, REFUSAL_SIZE, refusal as usize);
    numbers::put_number(out, at + REFUSAL_SIZE, PLACE_SIZE, place.0);
    numbers::put_number(out, at + REFUSAL_SIZE + PLACE_SIZE, UNITS_SIZE, units);
}

// The line of a judged sample over a buffer that has room.
fn put_line(out: &mut [u8], at: usize, judged: Result<usize, Refusal>)
    requires { at + line_size ≤ length out.old }
    ensures { out.new ≡ put out.old at (line_bytes (verdict_of judged) (units_in judged)) }
{
    match judged {
        Err(f) => put_numbers(out, at, f.number, f.place, 0),
        Ok(count) => put_numbers(out, at, 0, ByteOffset(0), count),
    }
}

// The lines of the samples after the first `skipped` ones, up to last, by what a table keeps of them, over the start of the buffer; nothing where
// they do not fit.
pub fn write_lines(t: &[u64], skipped: usize, last: SampleNumber, lines: &mut [u8])
    ensures { lines.new ≡ put lines.old 0 (kept_lines t.now skipped last.0) }
{
    if last.0 <= skipped {
        return;
    }
    if lines.len() / LINE_SIZE < last.0 - skipped {
        return;
    }
    let mut at = 0;
    for n in skipped..last.0 {
        put_line(lines, at, verdicts::kept_verdict(t, SampleNumber(n + 1)));
        at += LINE_SIZE;
    }
}

// What the audit finds of a judged sample of so many bytes.
fn outcome(judged: Result<usize, Refusal>, size: usize) -> Outcome
    ensures { result ≡ outcome_in judged size }
{
    match judged {
        Err(_) => Outcome::Refused,
        Ok(_) if size == 0 => Outcome::Empty,
        Ok(_) => Outcome::Passed,
    }
}

// The sample after the first done samples, by its judgement in the table: its line written, and what the audit finds of it.
fn audit_sample(b: &[u8], t: &[u64], done: usize, out: &mut [u8]) -> Outcome
    requires { JudgementsKept b.now t.now × (line_size * done + line_size ≤ length out.old) × (done < sample_count (recording_in b.now t.now).layout) }
    ensures { (result ≡ outcome_of (recording_in b.now t.now) (done + 1))
        × (out.new ≡ put out.old (line_size * done) (line_of (recording_in b.now t.now) (done + 1))) }
{
    let n = SampleNumber(done + 1);
    let judged = verdicts::kept_verdict(t, n);
    let x = sample_tables::sample_bytes(b, t, n);
    put_line(out, LINE_SIZE * done, judged);
    outcome(judged, x.len())
}

// All samples, of which there are count, by a table with their judgements: a line each over the start of a buffer that has room, and their tally.
// The one running tally is this function's own, and is lent once a sample.
fn audit_samples(b: &[u8], t: &[u64], count: usize, out: &mut [u8]) -> Tally
    requires { JudgementsKept b.now t.now × (count ≡ sample_count (recording_in b.now t.now).layout) × (line_size * count ≤ length out.old) }
    ensures { (result ≡ tally (recording_in b.now t.now))
        × (out.new ≡ overwrite out.old (lines (recording_in b.now t.now))) }
{
    let mut tally = tally::start();
    for done in 0..count {
        let outcome = audit_sample(b, t, done, out);
        tally::raise(&mut tally, outcome);
    }
    tally
}

// An accepted bundle by its table: 29, or all lines and the tally. 29 is known before the first byte is written. All samples are judged, each
// judgement kept in the table, and then written.
fn audit_accepted(b: &[u8], t: &mut [u64], out: &mut [u8]) -> Result<Report, Refusal>
    requires { (length b.now ≤ bundle_most) × (table_most ≤ length t.old) }
    ensures { Wrote out.old out.new (lines_answer result) (within (length out.old) (ok (lines (recording_in b.now t.old))))
        × (tally_answer result ≡ tally_within (recording_in b.now t.old) (length out.old)) }
{
    let count = sample_tables::sample_count(t);
    let size = LINE_SIZE * count;
    if out.len() < size {
        return Err(Refusal::at(Fault::OutputTooLong, 0));
    }
    verdicts::judge_all(b, t);
    let tally = audit_samples(b, t, count, out);
    Ok(Report { count: size, tally })
}

// A bundle audited: 1 to 13, 29; or a line a sample over the start of the buffer, how many bytes that is, and the tally. After a refusal
// the buffer is as it was.
pub fn audit(b: &[u8], lines: &mut [u8]) -> Result<Report, Refusal>
    ensures { Wrote lines.old lines.new (lines_answer result) (audit_call first_layout b.now (length lines.old))
        × (tally_answer result ≡ tally_call first_layout b.now (length lines.old)) }
{
    let mut t = [0u64; tables::TABLE_SIZE];
    filling::fill_table(b, &mut t)?;
    audit_accepted(b, &mut t, lines)
}
