// No behaviour: a checked capture, played, and what is printed of it. 02, request 01.
#![tactic(auto)]
