// What is true of all parts together: laws.
#![tactic(auto)]
