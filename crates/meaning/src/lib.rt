// No code: what rules mean and which labelling is wanted is defined in specs/, and proved about in proofs/.
#![tactic(auto)]
