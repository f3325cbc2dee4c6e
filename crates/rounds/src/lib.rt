// The test and the forcing of edition 2, in definitions.
// Definitions and laws only: this crate has no function.

#![tactic(auto)]
