// The text of the two programs, to the writer that is lent. The libraries find what is said; no contract speaks of what is written.
#![tactic(auto)]

mod audit_text;
mod names_text;
mod text;

pub use audit_text::print_audit;
pub use names_text::print_names;
pub use text::print_too_big;
