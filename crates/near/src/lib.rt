// Laws on the rows and columns of a segment, and no code.
#![tactic(auto)]
