// The static library for C, as include/puddockle.h declares it: each function calls the one of the same name in the crate puddockle, and keeps its clauses.
#![tactic(auto)]

mod bundle;
mod entries;
mod numbered;
mod ranged;
mod record;
mod report;
mod salvaged;
mod sample;
