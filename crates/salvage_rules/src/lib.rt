// What is kept of a damaged sample, and which changes are listed: no code, the laws are in proofs/.
#![tactic(auto)]

// What becomes of a top-level unit: it is kept as it is, dropped, or kept with additional_bytes 0.
#[derive(Clone, Copy)]
pub enum Fate {
    Kept,
    Dropped,
    Zeroed,
}
