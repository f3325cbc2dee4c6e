// The second front page: what document 02's Wish 1 orders, sentence by sentence.
// Laws only: this crate has no function.

#![tactic(auto)]
