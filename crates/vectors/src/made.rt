//! Values that are made to be shown. One generic function owns them, so that what shows them only borrows them.

use crate::page::Page;
use crate::trees::write_errors;
use cfgrammar::yacc::YaccFault;

/// What is shown of a value.
pub(crate) trait Shown<T> {
    /// Writes what is shown.
    fn show(&self, page: &mut Page, made: &mut T);
}

/// Writes what is shown of a value that was made, or the errors because of which it wasn't.
pub(crate) fn show<T: Drop, S: Shown<T>>(page: &mut Page, shown: &S, made: Result<T, YaccFault>) {
    match made {
        Ok(mut value) => shown.show(page, &mut value),
        Err(YaccFault::Errors(errors)) => write_errors(page, &errors),
        Err(YaccFault::OutOfMemory) => page.tear(),
    }
}
