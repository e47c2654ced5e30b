// Laws of descriptions that build on others, and of compiling as a whole. They are in specs/.
#![tactic(auto)]
