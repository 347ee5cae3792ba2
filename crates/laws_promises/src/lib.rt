// No behaviour: what every history of calls keeps (specs/History.antt, specs/Demand.antt).
#![tactic(auto)]
