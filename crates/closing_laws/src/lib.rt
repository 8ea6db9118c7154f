// Theorems about closing up the heap, of the definitions of table alone: they stand in specs/.
#![tactic(auto)]
