// Images of kinds 0 and 3 with the same nodes answer alike, and the conversions between them keep the nodes, proved over the rules for
// every image: the definitions in specs/, the theorems in proofs/, no function.
#![tactic(auto)]
