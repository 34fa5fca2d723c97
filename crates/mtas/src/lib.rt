// The model: definitions in specs/, theorems in proofs/. Nothing runs here.
#![tactic(auto)]
