// Laws of whole numbers only: see specs/.
#![tactic(auto)]
