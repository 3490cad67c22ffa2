// Definitions and laws on lists, octets and numbers that any crate may need: they stand in specs/ and proofs/, and there is no code.
#![tactic(auto)]
