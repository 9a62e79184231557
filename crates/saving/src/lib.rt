// The state file and what is true of saving and restoring: definitions and laws, no function.
#![tactic(auto)]
