//! What each step on the table tells.
ghost use Rattle.cat_turns.specs.Law.{joined, newcomer, parent, spent};
ghost use Rattle.cat_turns.specs.Steps.{drawn, looked, told, passed_on, put_back};

use crate::law::{Held, View};
use crate::tells::Tells;
use atomic_table::{Join, Play, Split};

/// The seat draws a ticket.
pub(crate) struct Draw;

impl<V: Tells> Play<Held<V>, View<V::Entry>> for Draw {
    ghost then = { drawn V.list V.pass_of };
}

/// The seat looks at the ticket that is served, and takes the value out where it is its own.
pub(crate) struct Look;

impl<V: Tells> Play<Held<V>, View<V::Entry>> for Look {
    ghost then = { looked V.list V.pass_of };
}

/// The seat tells the length of the list.
pub(crate) struct Tell;

impl<V: Tells> Play<Held<V>, View<V::Entry>> for Tell {
    ghost then = { told V.list V.pass_of };
}

/// The seat puts the value back, and serves the next.
pub(crate) struct PassOn;

impl<V: Tells> Play<Held<V>, View<V::Entry>> for PassOn {
    ghost then = { passed_on V.list V.pass_of };
}

/// The seat puts the value back, and keeps the turn.
pub(crate) struct PutBack;

impl<V: Tells> Play<Held<V>, View<V::Entry>> for PutBack {
    ghost then = { put_back V.list V.pass_of };
}

/// A new seat has the next number, and has seen what the old one has.
pub(crate) struct Fork;

impl<E> Split<View<E>> for Fork {
    ghost left = { parent };

    ghost right = { newcomer };
}

/// The first seat notes what the second has seen, and its number.
pub(crate) struct Merge;

impl<E> Join<View<E>> for Merge {
    ghost both = { joined };

    ghost spent = { spent };
}
