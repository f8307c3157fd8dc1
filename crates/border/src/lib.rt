// The C border: all that a program in C calls, over numbers and byte slices.
//
// At this border a table is bytes, 4 for each number, high byte first, in the order of docs/TABLES.md. Each function turns the
// bytes of a table into numbers, lets the crate below do the work, and lays the numbers back over the bytes (`words`). `hub`
// has one unit's calls and questions, `messages` the reader and the writer, `networks` a whole network and the tracer, `meters`
// a meter over a network.
//
// Here answers become numbers (`answers`). One below 100 is a refusal, which leaves all that was lent as it came; any other is 100 plus the value, or the
// largest number for unreachable. Every name begins with `puntclover_`: the crate `border_c` exports them for C, and
// include/puntclover/ has the headers.
#![tactic(auto)]

mod answers;
pub mod hub;
pub mod messages;
pub mod meters;
pub mod networks;
mod words;
