// Demand 3: a text through the air. No functions: what is demanded stands in specs/, that it is kept in proofs/.
#![tactic(auto)]
