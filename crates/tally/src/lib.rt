// One running tally of passed, empty and refused samples.
#![tactic(auto)]

ghost use Rattle.std.specs.Prelude.{◌≡◌, []};
ghost use Rattle.tally.specs.Tallies.{tallied, one_more, raised_by};

// What an audit finds of a sample.
#[derive(Clone, Copy)]
pub enum Outcome {
    Passed,
    Empty,
    Refused,
}

// How many samples passed, how many are empty, how many are refused.
#[derive(Clone, Copy, Default)]
pub struct Tally {
    pub passed: u64,
    pub empty: u64,
    pub refused: u64,
}

// The tally of no sample.
pub fn start() -> Tally
    ensures { result ≡ tallied [] }
{
    Tally::default()
}

// One more, but never past the largest number.
fn one_more(n: u64) -> u64
    ensures { result ≡ one_more n }
{
    n.saturating_add(1)
}

// By value.
pub fn raised(t: Tally, o: Outcome) -> Tally
    ensures { result ≡ raised_by o t }
{
    match o {
        Outcome::Passed => Tally {
            passed: one_more(t.passed),
            ..t
        },
        Outcome::Empty => Tally {
            empty: one_more(t.empty),
            ..t
        },
        Outcome::Refused => Tally {
            refused: one_more(t.refused),
            ..t
        },
    }
}

// The tally that is lent, raised by one sample.
pub fn raise(t: &mut Tally, o: Outcome)
    ensures { t.new ≡ raised_by o t.old }
{
    *t = raised(*t, o);
}
