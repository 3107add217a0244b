// Demand 3 for the whole-number form, over the definitions: specs/WholeForm states it, proofs/ has its proof. No code.
#![tactic(auto)]
