//! Scripts with events that claim to be an execution of their clients.
use check_answers::is_execution;
use sdb_report::read_report;
use sdb_script::read_script;
use sdb_types::{Name, Names};
use std::alloc::Global;
use std::test::Fail;
use test_builders::Case;

/// A script, events as a report has them, and whether they are an execution of the script's clients.
#[derive(Clone, Copy)]
pub struct Claim {
    pub script: &'static str,
    pub report: &'static str,
    pub so: bool,
}

// The stores that these scripts may name.
fn store_names(alloc: Global) -> Result<Names, Fail> {
    let mut names = Names::new(alloc);
    names.push(Name::new(alloc, "ordered")?)?;
    names.push(Name::new(alloc, "hashed")?)?;
    names.push(Name::new(alloc, "sqlite")?)?;
    Ok(names)
}

impl Case for Claim {
    fn holds(self, alloc: Global) -> Result<bool, Fail> {
        let names = store_names(alloc)?;
        let script = read_script(alloc, self.script.as_bytes(), &names)?;
        let report = read_report(alloc, self.report.as_bytes())?;
        Ok(is_execution(alloc, &script, report.events.as_slice())? == self.so)
    }
}
