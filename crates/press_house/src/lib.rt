// Document 01's cases and its journal, computed on the model: definitions in specs/, theorems in proofs/. Nothing runs here.
#![tactic(auto)]
