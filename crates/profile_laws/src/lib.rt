// Laws alone: the rules of a profile in words, and what a check and a build by profile promise.
#![tactic(auto)]
