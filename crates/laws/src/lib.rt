// What the proofs share. No function stands here.
#![tactic(auto)]
