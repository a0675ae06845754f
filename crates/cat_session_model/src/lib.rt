//! The abstract session: what a line does to the catalogue, the moment and the stitch orders that were handed out, and the reply to it; and its
//! laws: whatever the lines, a quiet catalogue's documents are those computed afresh, under the rule that deletes what leaves there are no
//! orphans, the inputs are those of the accepted commands, a settle that is answered `settled` leaves it quiet, and what came of a line can be
//! read off its reply. A mutation that comes again in a session acts once, wherever in the lines it comes, so a provider whose answer was lost can
//! send its line again, any number of times, at any later place. Beside them stand the settings of the program.
//!
//! It stands on cat_model for the abstract catalogue and its laws, on cat_session_lines for the grammar of lines, on cat_io for what comes of a list
//! of lines, and on cat_replies for the texts.
#![tactic(auto)]

pub mod law;
pub mod once;
pub mod settings;
pub mod state;
