// Recorded lists of events, evaluated on the rules of document 01: the theorems stand in proofs/, and there is no code.
#![tactic(auto)]
