// No behaviour: at a rate that is the internal clock a word is one tick, and so it is on a default chip (specs/Claims.antt).
#![tactic(auto)]
