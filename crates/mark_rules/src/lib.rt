// What a walk over all units of a sample knows at a place, and what an extractor copies, counted: no code, the laws are in proofs/.
#![tactic(auto)]

// A walk: where it stands; the end of the last aggregator that it met; how many units it has met besides aggregators, how many bytes they
// have, how many of them are extractors. By default, before the first unit.
#[derive(Clone, Copy, Default)]
pub struct WalkState {
    pub place: usize,
    pub until: usize,
    pub count: usize,
    pub bytes: usize,
    pub extractors: usize,
}

// How many units an extractor copies, and how many bytes they have.
#[derive(Clone, Copy)]
pub struct CopyAmount {
    pub count: usize,
    pub bytes: usize,
}
