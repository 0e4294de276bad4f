// Laws of the definitions only: see specs/.
#![tactic(auto)]
