// Samples judged by a bundle and any table beside it: 30, 14 to 28, or how much they deliver. A sample's form is checked once, and no sample
// that an extractor names is gone over for the extractor: what it copies is counted from marks (the crate marks).
#![tactic(auto)]

mod measuring;
mod surveys;

ghost use Rattle.std.specs.Prelude.{◌≡◌, ◌+◌, ◌≤◌, ◌<◌, length};
ghost use Rattle.words.specs.Refusals.{refused, ok};
ghost use Rattle.numbers.specs.Answers as written;
ghost use Rattle.units.specs.Units.{sample};
ghost use Rattle.samples.specs.Check.{check};
ghost use Rattle.bundles.specs.Limits.{bundle_most};
ghost use Rattle.bundles.specs.Recordings.{sample_count};
ghost use Rattle.tables.specs.Tables.{layout_in, recording_in, kept_count_in};
ghost use Rattle.resolution_rules.specs.Resolving.{sample_of};
ghost use Rattle.resolution_rules.specs.Ranges.{between, joined};
ghost use Rattle.judging.specs.Steps.{judgement, judgement_in, answer_of};
ghost use Rattle.verdicts.specs.Surveys.{word_most, Ready};
ghost use Rattle.verdicts.specs.Kept.{judgement_word, judged_size, sample_output_most, judgements_upto, judgements_between, with_judgements, range_size_in, with_range, verdict_in, kept_answer};

use judging::Amount;
use numbers::{ByteOffset, Fault, Refusal, SampleNumber};
use units::Track;

// Sample n, which is x and well formed. Those that its extractors name are checked and marked first, each once.
fn judge_formed(b: &[u8], t: &[u64], n: SampleNumber, k: Track, x: &[u8]) -> Result<Amount, Refusal>
    requires { (sample k x.now ≡ sample_of (recording_in b.now t.now) n.0) × (check (sample k x.now) ≡ ok tt) × (length b.now ≤ bundle_most) }
    ensures { answer_of result ≡ judgement (recording_in b.now t.now) n.0 }
{
    let mut forms = [0u64; surveys::FORMS_SIZE];
    let mut rows = [0u32; surveys::ROWS_SIZE];
    surveys::mark_named(b, t, n, k, x, &mut forms, &mut rows);
    measuring::measure(b, t, &forms, &rows, n, k, x)
}

// 30 for the number, 14 to 28 of sample n, or how much it delivers. A bundle too long is refused first: its amounts would not fit.
pub fn judge(b: &[u8], t: &[u64], n: SampleNumber) -> Result<Amount, Refusal>
    ensures { answer_of result ≡ judgement_in b.now t.now n.0 }
{
    judging::form::check_form(b, t, n)?;
    let k = delivery::track_of(t, n);
    let x = sample_tables::sample_bytes(b, t, n);
    judge_formed(b, t, n, k, x)
}

// A judgement as it is kept in one number: the refusal, then its place; or 0, then how many units are delivered.
fn judgement_word(judged: Result<Amount, Refusal>) -> u64
    requires { judgement_word (answer_of judged) ≤ word_most }
    ensures { result ≡ judgement_word (answer_of judged) }
{
    match judged {
        Err(f) => surveys::word(f.number as u64, f.place.0),
        Ok(a) => surveys::word(0, a.count),
    }
}

// How many bytes a judged sample adds to the output of a range.
fn judged_size(judged: Result<Amount, Refusal>) -> usize
    requires { judged_size (answer_of judged) ≤ sample_output_most }
    ensures { result ≡ judged_size (answer_of judged) }
{
    match judged {
        Err(_) => 0,
        Ok(a) => a.own_bytes + a.copied_bytes + copies::LENGTH_BEFORE * a.count,
    }
}

// Samples first to last judged, by what is known of them, each judgement kept beside its sample; how long their joined output is.
fn keep_range(
    b: &[u8],
    t: &mut [u64],
    forms: &[u64],
    rows: &[u32],
    first: usize,
    last: usize,
) -> usize
    requires { (length b.now ≤ bundle_most) × Ready b.now t.old forms.now rows.now
        × (0 < first) × (first ≤ last + 1) × (last ≤ sample_count (layout_in t.old)) }
    ensures { (result ≡ length (joined (recording_in b.now t.old) (between first last)))
        × (t.new ≡ judgements_between b.now t.old first last) }
{
    let mut size: usize = 0;
    for before in first - 1..last {
        let n = SampleNumber(before + 1);
        let judged = measuring::judge_known(b, t, forms, rows, n);
        sample_tables::keep_count(t, n, judgement_word(judged));
        size += judged_size(judged);
    }
    size
}

// All samples judged, by what is known of them, each judgement kept beside its sample.
fn keep_all(b: &[u8], t: &mut [u64], forms: &[u64], rows: &[u32])
    requires { (length b.now ≤ bundle_most) × Ready b.now t.old forms.now rows.now }
    ensures { t.new ≡ judgements_upto b.now t.old (sample_count (layout_in t.old)) }
{
    let count = sample_tables::sample_count(t);
    keep_range(b, t, forms, rows, 1, count);
}

// All samples judged, 14 to 28 or how many units they deliver, each judgement kept beside its sample in the table. Each is checked and marked
// once. A bundle too long leaves the table as it was.
pub fn judge_all(b: &[u8], t: &mut [u64])
    ensures { t.new ≡ with_judgements b.now t.old }
{
    if bundles::BUNDLE_MOST < b.len() {
        return;
    }
    let mut forms = [0u64; surveys::FORMS_SIZE];
    let mut rows = [0u32; surveys::ROWS_SIZE];
    surveys::mark_all(b, t, &mut forms, &mut rows);
    keep_all(b, t, &forms, &rows);
}

// Samples first to last judged, each judgement kept beside its sample in the table: 30, or how long their joined output is. Each is checked
// once, and so are those that their extractors name. A bundle too long, or a table too short for any bundle, is refused first. After a
// refusal the table is as it was.
pub fn judge_range(
    b: &[u8],
    t: &mut [u64],
    first: SampleNumber,
    last: SampleNumber,
) -> Result<usize, Refusal>
    ensures { (written.answer_of result ≡ range_size_in b.now t.old first.0 last.0)
        × (t.new ≡ with_range b.now t.old first.0 last.0) }
{
    if bundles::BUNDLE_MOST < b.len() {
        return Err(Refusal::at(Fault::BundleTooLong, 0));
    }
    if t.len() < tables::TABLE_SIZE {
        return Err(Refusal::at(Fault::BundleTooLong, 0));
    }
    judging::check_range(sample_tables::sample_count(t), first, last)?;
    let mut forms = [0u64; surveys::FORMS_SIZE];
    let mut rows = [0u32; surveys::ROWS_SIZE];
    surveys::mark_range(b, t, first.0, last.0, &mut forms, &mut rows);
    Ok(keep_range(b, t, &forms, &rows, first.0, last.0))
}

// What is kept beside sample n, read as a judgement.
pub fn kept_verdict(t: &[u64], n: SampleNumber) -> Result<usize, Refusal>
    ensures { kept_answer result ≡ verdict_in (kept_count_in t.now n.0) }
{
    let word = sample_tables::kept_count(t, n);
    let value = (word / surveys::PACKING) as usize;
    let number = (word % surveys::PACKING) as u8;
    if number == 0 {
        return Ok(value);
    }
    Err(Refusal {
        number,
        place: ByteOffset(value),
    })
}
