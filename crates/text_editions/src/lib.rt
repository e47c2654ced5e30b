// What a text gives in one edition and in a larger one. No code: see specs/.
#![tactic(auto)]
