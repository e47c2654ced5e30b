// Laws of source text's definitions. They are in specs/.
#![tactic(auto)]
