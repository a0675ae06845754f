//! Orders that were handed out.
ghost use Rattle.std.specs.Prelude.{◌≡◌, ◌<◌, ◌≤◌, ◌+◌, [], IfOk, OnOk, OnErr, option_map, vec_capacity, vec_len};
ghost use Rattle.cat_session.specs.Replies.{order_in, order_length, stitch_in, with_order};
ghost use Rattle.cat_session_model.specs.Session.{add_order, order_numbered};

use crate::replies::ROOM;
use cat_collections::map::Map;
use cat_desk::command::Reply;
use cat_model::types::{Order, StitchOrder};
use cat_types::reference::Ref;
use std::alloc::{AllocError, Global};

/// The first of the orders with this token.
pub(crate) fn order_numbered(orders: &[Order], token: u64) -> Option<&Order>
    ensures { option_map (λ x. x.now) result ≡ order_numbered token orders.now }
{
    for order in orders {
        if order.token == token {
            return Some(order);
        }
    }
    None
}

/// Room for the reply to a take that gives the order of this reference, or none.
pub(crate) fn room_for(alloc: Global, reference: &Option<Ref>) -> Result<Vec<u8>, AllocError>
    ensures empty { IfOk result (λ out. out.items ≡ []) }
    ensures len { IfOk result (λ out. vec_len out ≡ 0) }
    ensures room { IfOk result (λ out. 128 + order_length reference.now ≤ vec_capacity out) }
{
    match reference {
        None => Vec::with_capacity(alloc, ROOM),
        Some(reference) => Vec::with_capacity(alloc, ROOM + reference.as_str().len()),
    }
}

/// The order that a reply gives.
pub(crate) fn order_in(reply: Reply) -> Option<Order>
    ensures { result ≡ order_in reply }
{
    match reply {
        Reply::Taken(order) => order,
        _other => None,
    }
}

/// The stitch order that a reply gives.
pub(crate) fn stitch_in(reply: Reply) -> Option<StitchOrder>
    ensures { result ≡ stitch_in reply }
{
    match reply {
        Reply::StitchTaken(order) => order,
        _other => None,
    }
}

/// Keeps the order, if there is one, in the room that was taken for it.
pub(crate) fn keep(orders: &mut Vec<Order>, order: Option<Order>)
    requires { vec_len orders.old < vec_capacity orders.old }
    ensures { orders.new.items ≡ add_order order orders.old.items }
{
    if let Some(order) = order {
        match orders.push(order) {
            Ok(()) => {}
            Err(_) => unreachable!(),
        }
    }
}

/// Keeps the stitch order, if there is one, under its ticket.
pub(crate) fn keep_stitch(
    alloc: Global,
    stitches: &mut Map<u64, StitchOrder>,
    order: Option<StitchOrder>,
) -> Result<(), AllocError>
    ensures ok { OnOk result (stitches.new ≡ with_order order stitches.old) }
    ensures err { OnErr result (stitches.new ≡ stitches.old) }
{
    match order {
        None => Ok(()),
        Some(order) => stitches.put(alloc, order.ticket, order),
    }
}
