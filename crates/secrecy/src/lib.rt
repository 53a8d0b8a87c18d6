// What two entries of a log tell, counted over all choices of masks, and the bench sheet. Theorems only: there is no code here.
#![tactic(auto)]
