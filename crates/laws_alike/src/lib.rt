// No behaviour: chips of different variants differ only in what their channels give (specs/Claims.antt).
#![tactic(auto)]
