// Theorems about compiled entries. No code: see specs/.
#![tactic(auto)]
