// Definitions and laws of lists of numbers: see specs/. No code.

#![tactic(auto)]
