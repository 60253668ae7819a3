// The walk as an enumeration: it hands over each legal assignment once, and ends. It has proofs, and no code of its own.

#![tactic(auto)]
