//! All that follows from a change, as a plan of what differs.
ghost use Rattle.std.specs.Prelude.{◌≡◌, ◌≤◌, ◌^◌, IfOk};
ghost use Rattle.cat_model.specs.declared.types.State.{State};
ghost use Rattle.cat_model.specs.Catalogue.{frame, reheld};
ghost use Rattle.cat_model.specs.Sound.{AreOrdered, Sound};
ghost use Rattle.cat_plan.specs.Linked.{AreLinked};
ghost use Rattle.cat_plan.specs.Followed.{followed};
ghost use Rattle.cat_plan.specs.Made.{AreReached, IsMade};

use crate::change::Change;
use crate::layers::Layers;
use crate::link_plan::plan_links;
use crate::mark_plan::{MarkPlan, plan_marks};
use crate::record_plan::{RecordPlan, plan_records};
use cat_links::links::LinkPlan;
use std::alloc::{AllocError, Global};

/// What follows from a change: what to put into each table and what to take out of it, the next number and the next ticket,
/// and the plan of the links.
#[derive(Drop)]
pub struct Following {
    pub records: RecordPlan,
    pub links: LinkPlan,
    pub marks: MarkPlan,
}

/// All that follows from a change, which only asks the references that the change reaches. It takes all memory that the
/// plan wants, and the only refusal is want of it.
pub fn plan<L: Layers>(
    alloc: Global,
    layers: &L,
    change: &Change<'_>,
) -> Result<Following, AllocError>
    requires number { change.now.m.now.number ≤ 2 ^ 59 }
    requires ticket { change.now.m.now.ticket ≤ 2 ^ 59 }
    requires sound { Sound L.rules change.now.m.now }
    requires ordered { AreOrdered change.now.m.now }
    requires linked { AreLinked L.rules change.now.links.now change.now.m.now }
    requires reach { AreReached L.rules change.now }
    ensures state { IfOk result (λ x. (n : State) → IsMade change.now n
        → followed x change.now.m.now (reheld n) ≡ frame L.rules change.now.how change.now.m.now n) }
    ensures linked { IfOk result (λ x. (n : State) → IsMade change.now n
        → AreLinked L.rules x.links.after (frame L.rules change.now.how change.now.m.now n)) }
{
    let records = plan_records(alloc, layers, change)?;
    let links = plan_links(alloc, layers, change)?;
    let marks = plan_marks(alloc, layers, change, &links)?;
    Ok(Following {
        records,
        links,
        marks,
    })
}
