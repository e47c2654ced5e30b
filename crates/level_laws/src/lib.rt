// Laws alone: they stand in specs/ and proofs/.
#![tactic(auto)]
