// What the arrays of the compiler hold, and laws of keeping states and of writing them: definitions and laws, no code.
#![tactic(auto)]
