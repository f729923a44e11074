// Laws on the contracts of `trace_read2` and `trace_write2`. Definitions and laws only.
#![tactic(auto)]
