// Theorems about the corners of a region, the order in which they are listed, and the ring that finds them. No code.

#![tactic(auto)]
