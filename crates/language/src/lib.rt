// The language of typed rules: definitions in specs/, and in proofs/ what they make of a text. The readers that equal them are crate
// `typed_rules`'s.

#![tactic(auto)]
