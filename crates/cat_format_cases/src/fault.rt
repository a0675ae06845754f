//! Why a case has no answer.
use cat_case::shown::ShowFault;
use cat_inputs::fault::{InputFault, ShelfFault};
use cat_query::facets::FacetFault;
use cat_query::fault::QueryFault;
use cat_search::condition::FilterFault;
use cat_session_lines::fault::LineFault;
use cat_target::target::TargetFault;
use cat_tree::read::TreeFault;
use cat_types::fault::RefFault;
use std::alloc::AllocError;
use thiserror::Error;

/// Why a case has no answer. It is shown as the name of the fault.
#[derive(Debug, Drop, Error)]
pub enum Fault {
    #[error("no such subject")]
    Subject,
    #[error("no such question")]
    Question,
    #[error("no memory")]
    Memory(#[from(alloc)] AllocError),
    #[error("{0}")]
    Show(#[from] ShowFault),
    #[error("{0:?}")]
    Tree(#[from] TreeFault),
    #[error("{0:?}")]
    Reference(#[from] RefFault),
    #[error("{0:?}")]
    Target(#[from] TargetFault),
    #[error("{0:?}")]
    Input(#[from] InputFault),
    #[error("{0:?}")]
    Shelf(#[from] ShelfFault),
    #[error("{0:?}")]
    Filter(#[from] FilterFault),
    #[error("{0:?}")]
    Query(#[from] QueryFault),
    #[error("{0:?}")]
    Facet(#[from] FacetFault),
    #[error("{0:?}")]
    Line(#[from] LineFault),
}
