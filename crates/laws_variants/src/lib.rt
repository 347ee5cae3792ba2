// No behaviour: what a variant changes and what it does not (specs/Claims.antt), and 02's request 05 in worked cases (specs/Table.antt).
#![tactic(auto)]
