// The user's demands as theorems: specs/ states them, proofs/ shows them. No function.
#![tactic(auto)]
