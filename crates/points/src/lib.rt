// Points: their units, and the digits that write them (document 01, "The areas" and "Each message", 244H).
#![tactic(auto)]

pub mod patterns; // the axes of a pattern
pub mod point; // the point and its slot's layout
pub mod reading; // reading points from digits
pub mod units; // positions, accelerations and speeds
