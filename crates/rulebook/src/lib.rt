// No code: that reading and writing a rulebook undo each other, and which texts differ only in their classes, is stated in specs/ and proved in proofs/.
#![tactic(auto)]
