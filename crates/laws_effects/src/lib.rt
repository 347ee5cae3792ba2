// No behaviour: what calls report of the writes that they apply (specs/Claims.antt), beside a history's ledger (specs/Ledger.antt), and 02's
// request 03 in worked cases (specs/Table.antt).
#![tactic(auto)]
