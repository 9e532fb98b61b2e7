// The C interface, as a library: include/puddockle.h says what each function takes and gives. The crate puddockle_c exports these functions to C.
#![tactic(auto)]

mod answer;
pub mod bundle;
pub mod entries;
pub mod numbered;
pub mod ranged;
pub mod record;
pub mod report;
pub mod salvaged;
pub mod sample;
