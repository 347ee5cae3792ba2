// No behaviour: a checked dump plays frame after frame, none refused, and what the player prints of it. 01, "The dump player".
#![tactic(auto)]
