// No behaviour: frames and dumps as calls, and histories that begin at a handed-in record (specs/Histories.antt, specs/Claims.antt).
#![tactic(auto)]
