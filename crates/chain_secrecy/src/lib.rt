// What two entries of a chain's logs tell, counted over all choices of both calls' masks. Theorems only: there is no code here.
#![tactic(auto)]
