// No code: what an export is, what is left of it for a reader, and how its reading may be cut. The definitions stand in specs/, why they
// agree in proofs/.
#![tactic(auto)]
