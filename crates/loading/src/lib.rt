// A table as it is loaded: task by task into rows and flags, with no copy of the tasks between. There is no
// function here: what is said of such a loading, and its laws.
#![tactic(auto)]
