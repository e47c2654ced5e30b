// Document 01's trials as one proved table. No code: see specs/.
#![tactic(auto)]
