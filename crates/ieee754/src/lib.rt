// What roots, lengths, whole parts and conversions mean by IEEE 754, as laws, and no code.
#![tactic(auto)]
