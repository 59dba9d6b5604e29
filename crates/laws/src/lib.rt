// No code: laws of tests, searches, lists and buffers that several crates cite. What they speak of stands in specs/, why it is true in proofs/.
#![tactic(auto)]
