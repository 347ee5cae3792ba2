// No behaviour: the chip that a C or Rust host's record holds after any calls (specs/Hosts.antt), so that demand 3 holds of it.
#![tactic(auto)]
