//! The drivers of tables of cases.
use std::alloc::Global;
use std::test::Fail;

/// A case of a table: what is asked, and how it is answered.
pub trait Case: Copy {
    /// Whether it is answered so.
    fn holds(self, alloc: Global) -> Result<bool, Fail>;
}

/// The table and the place of a case that is answered otherwise.
#[derive(Debug, Drop)]
pub struct Otherwise {
    pub table: &'static str,
    pub place: usize,
}

/// Fails at the first case that is answered otherwise.
pub fn all_cases<C: Case>(alloc: Global, table: &'static str, cases: &[C]) -> Result<(), Fail> {
    for (place, case) in cases.iter().enumerate() {
        if !case.holds(alloc)? {
            return Err(Fail::from(Otherwise { table, place }));
        }
    }
    Ok(())
}

/// Fails unless it holds.
pub fn hold(held: Result<bool, Fail>) -> Result<(), Fail> {
    match held {
        Ok(true) => Ok(()),
        Ok(false) => Err(Fail::from("it does not hold")),
        Err(failed) => Err(failed),
    }
}
