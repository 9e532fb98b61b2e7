// Answers, given through pointers.
ghost use Rattle.std.specs.Prelude.{◌≡◌};
ghost use Rattle.words.specs.Refusals.{number_of, place_of, count_of};
ghost use Rattle.numbers.specs.Answers.{answer_of};

use numbers::Refusal;

// A refusal: its number, and its place behind the pointer.
pub(crate) fn refused(f: Refusal, place: &mut u64) -> u32
    ensures { (result ≡ f.number) × (place.new ≡ f.place.0) }
{
    let at = f.place;
    *place = at.0 as u64;
    f.number as u32
}

// What a call that writes answers: a refusal with its place and no count, or 0 with the count.
pub(crate) fn written(w: Result<usize, Refusal>, place: &mut u64, count: &mut u64) -> u32
    ensures { (result ≡ number_of (answer_of w)) × (place.new ≡ place_of (answer_of w)) × (count.new ≡ count_of (answer_of w)) }
{
    *place = 0;
    *count = 0;
    match w {
        Err(f) => refused(f, place),
        Ok(n) => {
            *count = n as u64;
            0
        }
    }
}
