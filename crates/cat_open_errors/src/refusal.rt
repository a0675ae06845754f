//! What is told of a store that can't be opened: a status, and the line that names a row.

ghost use Rattle.std.specs.Prelude.{◌≡◌, ◌≢◌, ◌≤◌, IfOk, IfSome, List, [], ◌∷◌, Option};
ghost use Rattle.cat_connection.specs.Status.{IsOneOf};
ghost use Rattle.cat_keeper.specs.Store.{Rows};
ghost use Rattle.cat_layers.specs.Layered.{layered};
ghost use Rattle.cat_model.specs.declared.types.OrphanRule.TheVariants.{Keep};
ghost use Rattle.cat_store.specs.Refused.{IsNamed, IsRefused as MayRefuse};
ghost use Rattle.cat_session_model.specs.Program.{program_settings};
ghost use Rattle.cat_open_errors.specs.Unopened.{IsLineOf, IsRefused, IsUnopenable, refused_store};

use cat_connection::Status;
use cat_io::{Sink, write_all};
use cat_keeper::table::Table;
use cat_store::open::OpenFault;
use std::alloc::{AllocError, Global};

// The line that names a row of a store.
fn refusal(alloc: Global, table: Table, key: &str) -> Result<Vec<u8>, AllocError>
    ensures { IfOk result (λ line. line.items ≡ refused_store table key.now) }
{
    let mut line = String::from_str(alloc, "refused store ")?;
    line.push_str(table.name())?;
    line.push_str(" ")?;
    line.push_str(key)?;
    line.push_str("\n")?;
    Ok(line.into_bytes())
}

// Says which row of a store is refused. The status is `BadRow`, whether the sink failed or not, or `NoMemory` where memory lacked for the line.
fn refuse<O: Sink>(alloc: Global, table: Table, key: &str, sink: &mut O) -> Status
    ensures refused { result ≡ Status.BadRow → IsLineOf table key.now (O.written sink.old) (O.written sink.new) (O.faults sink.old) (O.faults sink.new) }
    ensures memory { result ≡ Status.NoMemory → sink.new ≡ sink.old }
    ensures later { O.faults sink.old ≤ O.faults sink.new }
    ensures ended { IsOneOf result (Status.BadRow ∷ Status.NoMemory ∷ []) }
{
    match refusal(alloc, table, key) {
        Ok(line) => {
            let _ = write_all(sink, line.as_slice());
            Status::BadRow
        }
        Err(_) => Status::NoMemory,
    }
}

/// Why a store can't be opened, as a status, with the line that names a row: `StoreFault` where the keeper failed, `BadRow` where a row is named, and
/// `NoMemory` for want of memory. Nothing else is written.
pub fn unopened<O: Sink>(alloc: Global, fault: &OpenFault, sink: &mut O) -> Status
    ensures refused { result ≡ Status.BadRow → (told : Option Rows) → IfSome told (λ rows. IsNamed (program_settings Keep).input_limit rows fault.now)
        → IsRefused told (O.written sink.old) (O.written sink.new) (O.faults sink.old) (O.faults sink.new) }
    ensures unopenable { result ≡ Status.BadRow → (told : Option Rows) → IfSome told (λ rows. MayRefuse layered (program_settings Keep).input_limit rows fault.now) → IsUnopenable told }
    ensures keeper { result ≡ Status.StoreFault → fault.now ≡ OpenFault.Keeper }
    ensures unwritten { result ≢ Status.BadRow → sink.new ≡ sink.old }
    ensures later { O.faults sink.old ≤ O.faults sink.new }
    ensures ended { IsOneOf result (Status.StoreFault ∷ Status.BadRow ∷ Status.NoMemory ∷ []) }
{
    match fault {
        OpenFault::Keeper => Status::StoreFault,
        OpenFault::Row(table, key) => refuse(alloc, *table, key.as_str(), sink),
        OpenFault::NoMemory => Status::NoMemory,
    }
}
