// What a table draws, whatever its node numbers: definitions and laws, no code.
#![tactic(auto)]
