// General words and their laws, for every crate above: choices by a test, sums, the least, the first place,
// and rows of 32. There is no function here.

#![tactic(auto)]
