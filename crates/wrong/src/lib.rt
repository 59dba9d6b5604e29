// No code: wrong answers of the public routines, each with a theorem in proofs/ that it breaks the routine's promise.
#![tactic(auto)]
