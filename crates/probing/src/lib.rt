// A proved leak test for masked algorithms. It holds definitions and laws only, in specs/ and proofs/.
#![tactic(auto)]
