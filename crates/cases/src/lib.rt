// The twelve marked cases of document 01, and what is demanded of any host. No functions: the cases and the demands stand in
// specs/; that ours keeps them and that idle hosts break them, in proofs/.
#![tactic(auto)]
