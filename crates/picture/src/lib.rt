// A built table, drawn, is the picture of its segments: theorems on the contracts of `build` and `draw`, and no code.
#![tactic(auto)]
