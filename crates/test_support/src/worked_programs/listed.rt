//! Texts in several layouts, and their listings.

use super::spacing;

/// Texts and their listings, by hand.
pub const LAYOUTS: &[(&[u8], &str)] = &[
    (spacing::TEXT, spacing::LISTING),
    (
        b"proc main # start\nL:M: x=007\nend\n",
        "proc main\nL:\nM:\n  x = 7\nend\n",
    ),
    (
        b"proc main\r\nx = 1\r\n\r\nend\r\n",
        "proc main\n  x = 1\nend\n",
    ),
    (
        b"proc main\nx = 9223372036854775807\nend\n",
        "proc main\n  x = 9223372036854775807\nend\n",
    ),
];
