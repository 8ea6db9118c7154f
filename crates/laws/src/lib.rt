// Theorems about the definitions of table alone: they stand in specs/.
#![tactic(auto)]
