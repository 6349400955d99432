// Theorems about the definitions of the crate `meaning`, in proofs/. There is no code.
#![tactic(auto)]
