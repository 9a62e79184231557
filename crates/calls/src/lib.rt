// One tick of a circuit on its cells, and the law of a list of calls.
#![tactic(auto)]
