// What a pass of edition 2 means for schedules.
// Definitions and laws only: this crate has no function.

#![tactic(auto)]
