// No behaviour: playing a capture is a history of calls on a new chip, so demand 3 holds over it as it stands. 02, request 01.
#![tactic(auto)]
