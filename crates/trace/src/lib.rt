// The trace file: what it holds, and what reading and writing one find. Definitions and their laws only.
#![tactic(auto)]
