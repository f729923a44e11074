// Definitions alone: what building by profile answers and tells.
#![tactic(auto)]
