// What two entries of a selection's log tell, counted over all choices of its masks. Theorems only: there is no code here.
#![tactic(auto)]
