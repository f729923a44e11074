// Reading and writing undo each other: theorems on the contracts of `read` and `write`, and no code.
#![tactic(auto)]
