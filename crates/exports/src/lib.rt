// Laws on the contracts of the exported calls, and no code.
#![tactic(auto)]
