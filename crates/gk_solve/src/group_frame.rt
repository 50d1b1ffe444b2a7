use flow_links::Links;
use gen_kill::{BitTable, Problem};

/// A problem and what is found of it once, for a group of words side by side.
#[derive(Drop)]
pub(crate) struct GroupFrame<'a, 'g, 'p> {
    /// The problem.
    pub problem: &'a Problem<'g, 'p>,
    /// Its edges by point.
    pub links: &'a Links,
    /// For each point whether a path leads to it.
    pub paths: &'a [bool],
    /// For each point the words in which its statement does something: word `w` at place `w % 64`.
    pub effects: &'a [u64],
    /// The group's first word.
    pub first: u32,
    /// The group's words, a bit each: word `w` at place `w % 64`.
    pub mask: u64,
    /// For each variable the bits of the group's words that depend on it.
    pub dependence: &'a BitTable,
}
