//! The laws of every run of a catalogue, stated once: they hold of connections and of servers as they hold of sessions.
//!
//! A run is a list of deeds, each at its moment and with the word that says what came of it. What must hold between two events goes on
//! holding over runs from any state of which it holds; where such a catalogue is quiet its documents are those computed afresh; under the
//! rule that deletes, no run makes an orphan; and a settle that is answered as settled leaves the catalogue quiet. The messages of a
//! connection make a run, and so does the journal of a server's book, so each of them has these laws.
//!
//! Layer: laws over the abstract catalogue, like `cat_laws` and `cat_form_laws`. It stands on cat_model and cat_laws for events, on cat_desk
//! for deeds, on cat_api and cat_connection for what messages do, on cat_shared for journals, and on cat_in_memory and cat_layers for the
//! program's connections. It has no code: its laws are the contracts of functions whose bodies do nothing. Proofs may be changed here
//! without asking anybody above; the clauses are named by `run` and by `docs/`.
#![tactic(auto)]

pub mod law;
