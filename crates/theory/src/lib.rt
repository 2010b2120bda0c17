// Theorems about linear programs in two variables, and the functional model of the walk. No code.

#![tactic(auto)]
