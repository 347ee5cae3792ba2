// No behaviour: the noise comes back after its whole loop and no sooner (specs/Loop.antt). 02, request 11.
#![tactic(auto)]
