// What a caller may conclude from the public contracts: specs/Promises and specs/TileCalls state it, proofs/ has the
// proofs. No code.
#![tactic(auto)]
