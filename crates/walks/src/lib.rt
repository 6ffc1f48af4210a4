// Walks over MIR, in proofs (see proofs/Lib.antt): no code.
#![tactic(auto)]
