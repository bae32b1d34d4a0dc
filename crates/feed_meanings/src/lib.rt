// What the definitions of imports and exports mean, in the words of request T-01 (specs/), with the laws that they mean exactly that
// (proofs/). No code.
#![tactic(auto)]
