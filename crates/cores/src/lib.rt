// Laws and definitions alone: more cores, and the fewest. No function.

#![tactic(auto)]
