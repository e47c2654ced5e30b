// Laws of the output of an expansion (expansion/specs). No code: see specs/.
#![tactic(auto)]
