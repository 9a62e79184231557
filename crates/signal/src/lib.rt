// The meaning of circuits: definitions and laws.
#![tactic(auto)]
