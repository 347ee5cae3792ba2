// No behaviour: the 1,280 envelope entries of the crate's tables.rs (specs/Data.antt), each proved to be what the shape's four bits give.
#![tactic(auto)]
