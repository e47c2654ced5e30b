// The file of what is handed over, part by part, and laws of judging and writing it: definitions and laws, no code.
#![tactic(auto)]
