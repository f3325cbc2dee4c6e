// The front page: the demands, restated over the public promises.
// Definitions and laws only: this crate has no function.

#![tactic(auto)]
