// That definitions and second program agree on checks and builder calls stands in specs/.
#![tactic(auto)]
