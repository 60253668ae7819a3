// What a run of the keep rule comes to, by the order of doubles and their subtraction. It has proofs, and no code of its own.

#![tactic(auto)]
