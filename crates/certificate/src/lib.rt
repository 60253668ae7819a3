// The certificate: what the exported calls and the printed sheet mean, as statements, with their proofs. It has no code of its own; `certified` makes
// the calls and promises the statements.

#![tactic(auto)]
