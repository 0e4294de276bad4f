// Theorems over the calls' own contracts: all in specs/.
#![tactic(auto)]
