// Laws on the summary of every 64 rows, and no code.
#![tactic(auto)]
