// Lemmas that walks by hand share, for functions over a lent slice of structs: `specs/`. The crate has no code.
#![tactic(auto)]
