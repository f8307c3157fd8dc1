// Definitions and laws only: this crate has no code.
#![tactic(auto)]
