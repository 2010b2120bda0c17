// Theorems about the outcomes of many objectives from the corners of one region and its rays. No code.

#![tactic(auto)]
