//! Results with their orders.
ghost use Rattle.std.specs.Prelude.{◌≡◌, IfOk};

use cat_model::types::{Order, StitchOrder};
use cat_plan::layers::Layers;
use cat_types::node::Node;
use cat_types::work::Outcome;
use std::alloc::{AllocError, Global};
use std::marker::PhantomData;

/// A result with the order that it is of. Its type keeps that the outcome is the result of the order's work.
#[derive(Drop)]
pub struct Done<'a, L: Layers> {
    order: &'a Order,
    outcome: Outcome,
    layers: PhantomData<L>,
    ghost right: { outcome ≡ L.rules.result order.now.work },
}

impl<'a, L: Layers> Done<'a, L> {
    /// Works an order. The only refusal is want of memory.
    pub fn of(alloc: Global, layers: &L, order: &'a Order) -> Result<Done<'a, L>, AllocError>
        ensures { IfOk result (λ done. done.order.now ≡ order.now) }
    {
        let outcome = layers.result_of(alloc, &order.work)?;
        Ok(Done {
            order,
            outcome,
            layers: PhantomData,
        })
    }

    /// Lends the order.
    pub fn order(&self) -> &Order
        ensures { result.now ≡ self.now.order.now }
    {
        self.order
    }

    /// Lends the outcome, which is the result of the order's work.
    pub fn outcome(&self) -> &Outcome
        ensures { result.now ≡ L.rules.result self.now.order.now.work }
    {
        &self.outcome
    }
}

/// A document with the order that it is of. Its type keeps that the document is that of the order's parts.
#[derive(Drop)]
pub struct Stitched<'a, L: Layers> {
    order: &'a StitchOrder,
    document: Node,
    layers: PhantomData<L>,
    ghost right: { document ≡ L.rules.doc order.now.parts },
}

impl<'a, L: Layers> Stitched<'a, L> {
    /// Stitches the document of an order. The only refusal is want of memory.
    pub fn of(
        alloc: Global,
        layers: &L,
        order: &'a StitchOrder,
    ) -> Result<Stitched<'a, L>, AllocError>
        ensures { IfOk result (λ stitched. stitched.order.now ≡ order.now) }
    {
        let document = layers.doc(alloc, &order.parts)?;
        Ok(Stitched {
            order,
            document,
            layers: PhantomData,
        })
    }

    /// Lends the order.
    pub fn order(&self) -> &StitchOrder
        ensures { result.now ≡ self.now.order.now }
    {
        self.order
    }

    /// Lends the document, which is that of the order's parts.
    pub fn document(&self) -> &Node
        ensures { result.now ≡ L.rules.doc self.now.order.now.parts }
    {
        &self.document
    }
}
