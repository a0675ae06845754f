//! Descriptors, and the rules that they break.
use crate::fault::Fault;
use cat_case::case::Case;
use cat_case::shown::{push_counted, push_texts};
use cat_schema::faults::SchemaFault;
use cat_schema::rules::check;
use cat_tree::tree::Tree;
use std::alloc::{AllocError, Global};

// Puts a fault behind what stands so far.
fn push_fault(out: &mut String, fault: &SchemaFault) -> Result<(), AllocError> {
    push_counted(out, "S", u64::from(fault.rule))?;
    push_texts(out, &[" ", fault.place.as_str(), ";"])
}

fn push_faults(out: &mut String, faults: &[SchemaFault]) -> Result<(), AllocError> {
    for fault in faults {
        push_fault(out, fault)?;
    }
    Ok(())
}

// Puts the faults of a tree behind what stands so far.
fn push_checked(out: &mut String, alloc: Global, tree: &Tree) -> Result<(), AllocError> {
    let faults = check(alloc, tree)?;
    push_faults(out, faults.as_slice())
}

/// Puts the faults of a descriptor, one after the other, behind what stands so far.
pub fn faults(out: &mut String, alloc: Global, case: &Case) -> Result<(), Fault> {
    let tree = case.tree(alloc, 1)?;
    push_checked(out, alloc, &tree).map_err(Fault::Memory)
}
