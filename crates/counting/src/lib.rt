// Sums over all the values of secret numbers, to count with. It holds definitions and laws only, in specs/ and proofs/.
#![tactic(auto)]
