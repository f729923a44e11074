// Laws on the check of a row table from another maker, and no code.
#![tactic(auto)]
