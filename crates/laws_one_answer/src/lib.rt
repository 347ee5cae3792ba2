// No behaviour: two answers that satisfy a public call's promise are equal (specs/Settled.antt).
#![tactic(auto)]
