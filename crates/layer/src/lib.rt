// What two entries tell of a layer of calls, counted over all choices of all their masks. Theorems only: there is no code here.
#![tactic(auto)]
