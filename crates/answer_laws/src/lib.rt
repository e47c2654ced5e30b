// Laws about answers: what a call says determines its answer, and so does a number for C. No code: see specs/.
#![tactic(auto)]
