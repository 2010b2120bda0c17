// What a yes of the checker means: laws alone, no code.

#![tactic(auto)]
