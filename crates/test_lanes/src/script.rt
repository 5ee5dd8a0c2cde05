//! What scripts ask for, between whose lines stands `; `.
use machine_model::Setup;
use std::alloc::Allocator;
use test_support::setups::declared;
use trace_text::{Line, read_line};
use vm_base::{NoMemory, Request};

/// The setup that a script declares; none where it has a fault, or memory is refused.
pub fn setup_of<A: Allocator + Clone>(alloc: A, script: &str) -> Result<Setup<A>, NoMemory> {
    let lines = script.replace(alloc.clone()?, "; ", "\n")?;
    let declared = declared(lines.as_str());
    if declared.fault().is_some() {
        return Err(NoMemory);
    }
    let setup = declared.setup(alloc)?;
    Ok(setup)
}

/// The request of a line, if it is a call.
pub fn request_of(line: &str) -> Option<Request> {
    match read_line(line.as_bytes()) {
        Some(Line::Now(_, request)) => Some(request),
        _ => None,
    }
}
