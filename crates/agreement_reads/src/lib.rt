// That definitions and second program agree on reads and rewrites stands in specs/.
#![tactic(auto)]
