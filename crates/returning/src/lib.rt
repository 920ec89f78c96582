// The return promise, proved over the rules for every image: the definitions in specs/, the theorems in proofs/, no function.
#![tactic(auto)]
