// A press on the floor, as cases: the forty-one cycles, and every action at every stage. Definitions in specs/, theorems in proofs/. Nothing runs here.
#![tactic(auto)]
