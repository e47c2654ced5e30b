// Demand 3 whole. No code: see specs/.
#![tactic(auto)]
