// What was answered, beside what is wanted.

use std::process::Abort;

pub(crate) fn check_same<R: Abort>(rt: &R, got: &[u8], wanted: &[u8]) {
    assert_eq!(rt; got, wanted);
}

// What this team answered.
pub(crate) fn check_team<R: Abort>(rt: &R, got: &[u8], wanted: &[u8], team: (u32, u32)) {
    assert_eq!(rt; got, wanted, "{team:?}");
}

// A writer took this beginning, and the line of its fault stands before it.
pub(crate) fn check_fault<R: Abort>(
    rt: &R,
    got: &[u8],
    line: &[u8],
    taken: &[u8],
    beginning: &[u8],
) {
    assert_eq!(rt; taken, beginning);
    assert!(rt; got.starts_with(line));
}
