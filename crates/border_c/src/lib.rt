// The archive for C: every function of the crate border, exported under its own name.
//
// A library can be used by crates or by C, not by both. So each export here only calls the function of the same name, and says
// what that one says; `tools/check-contracts` compares them word for word.
#![tactic(auto)]

mod hub;
mod messages;
mod meters;
mod networks;
