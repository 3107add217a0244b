// Lists changed place by place, and the selected columns of a row: specs/ has the definitions, proofs/ the laws. No
// code.
#![tactic(auto)]
