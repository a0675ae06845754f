//! Why a case has no answer.
use cat_case::shown::ShowFault;
use cat_row_format::row::RowFault;
use cat_tree::read::TreeFault;
use cat_types::fault::RefFault;
use std::alloc::AllocError;
use thiserror::Error;

/// Why a case has no answer. It is shown as the name of the fault.
#[derive(Debug, Drop, Error)]
pub enum Fault {
    #[error("no such subject")]
    Subject,
    #[error("no such question")]
    Question,
    #[error("no memory")]
    Memory(#[from(alloc)] AllocError),
    #[error("{0}")]
    Show(#[from] ShowFault),
    #[error("{0:?}")]
    Tree(#[from] TreeFault),
    #[error("{0:?}")]
    Reference(#[from] RefFault),
    #[error("{0:?}")]
    Row(#[from] RowFault),
}
