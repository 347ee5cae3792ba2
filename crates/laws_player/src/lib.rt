// No behaviour: what the player hands out, piece by piece, is what is printed (specs/Claims.antt).
#![tactic(auto)]
