// The fifth front page: document 02's Wish 7, flags in one word (proofs/FrontPage.antt).
// Laws only: this crate has no function.

#![tactic(auto)]
