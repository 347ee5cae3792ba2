// No behaviour: the cases that 01 marks P, in one table (specs/Table.antt), proved by computation.
#![tactic(auto)]
