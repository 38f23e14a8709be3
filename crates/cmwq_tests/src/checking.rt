//! The assertion that nearly all tests make. A row of a table costs less to prove where it only calls this.
use std::fmt::Display;
use std::process::Abort;

/// What was got is what is wanted, in this case of a table.
pub(crate) fn same<C: Display + Drop, T: PartialEq + Drop>(
    rt: &impl Abort,
    case: C,
    got: T,
    want: T,
) {
    assert!(rt; got == want, "{case}");
}
