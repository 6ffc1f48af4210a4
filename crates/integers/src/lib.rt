// Whole numbers in proofs (see proofs/Lib.antt); and the bytes of a number, the one code here that runs.
#![tactic(auto)]

pub mod bytes;
