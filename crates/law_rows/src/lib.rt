// Demand 3 for the row form, over the definitions: specs/RowForm states it, proofs/ has its proof. No code.
#![tactic(auto)]
