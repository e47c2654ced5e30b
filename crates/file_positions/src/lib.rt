// Where a refused file is bad. No code: see specs/.
#![tactic(auto)]
