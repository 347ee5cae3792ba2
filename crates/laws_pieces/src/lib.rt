// No behaviour: what it means to hand out a list of bytes piece by piece, and when that is done.
#![tactic(auto)]
