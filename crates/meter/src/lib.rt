// A meter over a network's routes: frames that enter, move along successors, are delivered or dropped, and the bytes of them.
//
// The caller lends the meter's table beside the network's two. It has three figures, the bytes that have entered, that were
// delivered and that were dropped, and 64 places; a frame is named by the number of its place. The bytes that are held are those
// in the places, and no number of their own: entered is always the sum of the other three, and a table of which this is not true
// is not fit. Every call and question first tests all three tables (`fit`), as it may be the first one after the caller wrote
// into them. `table` reads and lays single figures and places, `calls` has the calls and `questions` the questions.
//
// The meter follows the routes and never changes them: a frame moves to a unit that is a successor now. That no frame
// circles while the tables stay as they are is proved of the definitions (docs/PROOF.md), and costs nothing here.
#![tactic(auto)]

pub mod calls;
pub mod fit;
pub mod questions;
pub mod table;
