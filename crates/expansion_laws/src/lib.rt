// Laws of the form, the digits and the run of a parameterized string (expansion/specs). No code: see specs/.
#![tactic(auto)]
