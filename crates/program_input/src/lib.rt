// What the programs take, without what they print: the argument as a number, the limit of the input, the used part of a buffer, input read
// into a buffer.
#![tactic(auto)]

pub mod buffers;
pub mod decimal;
pub mod filled;
pub mod limit;
