// Whole runs by the functions for C, on areas of bytes: the claim about them (specs/) and its proof (proofs/). No code.
#![tactic(auto)]
