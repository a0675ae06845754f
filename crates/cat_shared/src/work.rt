//! Work at a turn.
ghost use Rattle.std.specs.Prelude.{◌≡◌};
ghost use Rattle.cat_turns.specs.Law.{GrowsBeside, GrowsBy};
ghost use Rattle.cat_turns.specs.Turns.{IsSamePass};

use cat_turns::{Pass, Tells, Turns};
use std::sync::Wait;

/// What is to be done to a value.
pub(crate) trait Work<V> {
    /// What comes of it.
    type Answer;

    // It leads from the first value to the second one with this answer.
    ghost does: { Self → V → V → Self.Answer → Type 0 };

    /// Does it.
    fn on(self, value: &mut V) -> Self::Answer
        ensures { does self value.old value.new result };
}

/// Waits for the turn of a pass, and does the work on the value. The work may add entries of this pass to the list, and nothing else.
pub(crate) fn at_turn<V: Tells, W: Work<V> + Drop, R: Wait>(
    rt: &R,
    turns: &Turns<V>,
    pass: &mut Pass<V>,
    work: W,
) -> W::Answer
    requires own { pass.old.turns ≡ turns.now.id }
    requires grows { (before : V) (after : V) (answer : W.Answer) → W.does work before after answer → GrowsBy V.pass_of pass.old.number (V.list before) (V.list after) }
    ensures same { IsSamePass pass.old pass.new }
    ensures acts { (before : V) × (after : V) × GrowsBeside V.pass_of pass.old.number pass.old.seen (V.list before) × W.does work before after result × (pass.new.seen ≡ V.list after) }
{
    turns.act(
        rt,
        pass,
        move |value: &mut V| -> W::Answer
            ensures { W.does work value.old value.new result }
        { work.on(value) },
    )
}
