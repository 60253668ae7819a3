// The plain engine as definitions (02, item 10), and what it is to the walk. It has definitions and proofs, and no code of its own.

#![tactic(auto)]
