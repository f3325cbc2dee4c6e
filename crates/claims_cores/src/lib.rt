// The fourth front page: document 02's Wish 5, restated over the promises of the entries.
// Laws only: this crate has no function.

#![tactic(auto)]
