// Demands 1 to 3 of the calls for C, in specs/ and proofs/. There is no code.
#![tactic(auto)]
