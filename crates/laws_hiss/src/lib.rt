// No behaviour: the noise of a chip that calls can reach comes back after its whole loop and no sooner (specs/Chips.antt), in ticks and in
// calls that a bench makes (specs/Played.antt). 02, request 11.
#![tactic(auto)]
