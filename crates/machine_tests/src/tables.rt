//! What the machine asks of a program's tables.

use crate::suites::{COUNTER_FILES, Question, is_so};
use et_base::NoMemory;
use jvm_model::{ERROR, Kind, THROWABLE};
use std::alloc::Global;
use std::test::Fail;
use suite_load::Loaded;
use type_frames::Checked;
use vm_tables::Tables;

// Whether an error is a throwable, and a throwable need not be an error.
fn throwables_fit(alloc: Global, checked: &Checked) -> Result<bool, NoMemory> {
    let tables = Tables::of(alloc, checked.program())?;
    let (error, throwable) = (Kind::Class(ERROR), Kind::Class(THROWABLE));
    Ok(tables.kind_fits(error, throwable) && !tables.kind_fits(throwable, error))
}

// An error fits where a throwable is asked, and not the other way.
#[derive(Drop)]
struct ThrowablesFit;

impl Question for ThrowablesFit {
    fn holds(&self, alloc: Global, suite: &Loaded) -> Result<bool, Fail> {
        Ok(throwables_fit(alloc, &suite.checked)?)
    }
}

#[test]
fn an_error_fits_where_a_throwable_is_asked(rt: HostRuntime) -> Result<(), Fail> {
    assert!(rt; is_so(rt.alloc(), &COUNTER_FILES, &ThrowablesFit)?);
    Ok(())
}
