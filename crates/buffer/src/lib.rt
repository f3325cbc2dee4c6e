// What a buffer holds after words were written into it, and the laws of that. There is no function here.

#![tactic(auto)]
