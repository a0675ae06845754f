//! The rule of the words, the slot and the views.
use crate::tells::Tells;
use atomic_table::TableRule;
use std::collections::LinkedList;
use std::marker::PhantomData;

/// What lies in the slot: the value, how many passes are out, and how many numbers are drawn.
#[derive(Drop)]
pub struct Held<V> {
    /// The value.
    pub value: V,
    /// How many passes are out.
    pub out: u64,
    /// How many numbers are drawn.
    pub drawn: u64,
}

/// Where a seat stands, with its ticket.
pub enum Stage {
    /// It has no ticket.
    Idle,
    /// It waits for its turn.
    Waiting(u64),
    /// It has the turn, and the value is at home.
    Turn(u64),
    /// It has the turn, and the value is out with it.
    Out(u64),
}

/// What a seat at the table knows. No value of it is made.
pub struct View<E> {
    pub stage: Stage,
    /// The number of its pass.
    pub number: Option<u64>,
    /// The list as it saw it last.
    pub seen: LinkedList<E>,
    /// How many passes were split off when it last had the turn.
    pub came: u64,
    /// How many were joined.
    pub gone: u64,
    /// What a seat that was joined to this one had seen.
    pub noted: LinkedList<E>,
    /// The number of that seat.
    pub met: Option<u64>,
}

/// The rule of turns at values of this type.
pub struct Law<V> {
    value: PhantomData<V>,
}

impl<V: Tells> TableRule<Held<V>, View<V::Entry>, ()> for Law<V> {
    ghost use Rattle.cat_turns.specs.Law.{IsFair, first_view};

    ghost holds = { λ _. IsFair V.list V.pass_of };

    ghost first = { λ _. first_view };
}
