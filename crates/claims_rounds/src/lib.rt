// The third front page: the second edition of the test, as document 02's Wish 4 orders it.
// Laws only: this crate has no function.

#![tactic(auto)]
