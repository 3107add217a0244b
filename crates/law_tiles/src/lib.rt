// Tiles give the frame (document 02, M-110), over the definitions: specs/Tiles states it, proofs/ has its proof.
// No code.
#![tactic(auto)]
