// Frames (document 01, "Frame").
#![tactic(auto)]

pub mod checks; // test 6, the sum test for 12 and 7, and test 8 of the refusal table
pub mod replies; // closing a reply, and the error reply
pub mod sums; // the running sum
