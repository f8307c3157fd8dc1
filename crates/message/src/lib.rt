// Message bytes: reading one message, writing one message.
//
// A message says what changed in its sender's tree, or acknowledges such a message, or both. Its bytes are a table of
// contents and then the bodies: edition, sender, kind, number of entries; the changed units, one byte each; then for each
// of them three bytes, the unit's new head and link cost, or the mark of a removed entry.
//
// Between functions a change is one number, the four bytes that the message has for it: unit, head, cost high, cost low.
// So a message is a kind, a sender and a slice of such numbers, and no number can be given that has no bytes.
//
// `fields` tests what both directions share, whether the fields are those of a legal message. `reader` takes bytes apart
// and then asks `fields`; `writer` asks `fields` and then puts the bytes together. Neither keeps anything: a refusal leaves
// the caller's frame as it came. `numbers` has the reader with the fields in a lent table, as the C border gives them.
#![tactic(auto)]

mod fields;
pub mod kind;
pub mod numbers;
pub mod reader;
pub mod writer;
