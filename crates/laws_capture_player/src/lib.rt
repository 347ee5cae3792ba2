// No behaviour: what the player of captures hands out, piece by piece, is the whole output. 02, request 01.
#![tactic(auto)]
