// The rules of document 01 as definitions, and demand 3 proved about them: they stand in specs/ and proofs/, and there is no code.
#![tactic(auto)]
