// Walks along arcs. What they find bears on the time alone.

use crate::OutOfMemory;
use crate::lists::NodeList;
use std::alloc::Global;

// A node that a walk has entered and not left.
#[derive(Clone, Copy)]
struct OpenNode {
    node: u32,
    // How many of the arcs that leave it were gone over.
    arcs: usize,
}

/// A walk: which nodes were entered, and those that were left, each behind those to which it led.
#[derive(Drop)]
pub(crate) struct Walk {
    open: Vec<OpenNode>,
    entered: Vec<bool>,
    left: Vec<u32>,
}

impl Walk {
    /// A walk that did not begin.
    pub(crate) fn new(alloc: Global, count: u32) -> Result<Walk, OutOfMemory> {
        let entered = vec![in alloc; false; count as usize]?;
        Ok(Walk {
            open: Vec::new(alloc),
            entered,
            left: Vec::new(alloc),
        })
    }

    // Enters a node that was not entered.
    fn enter(&mut self, node: u32) -> Result<(), OutOfMemory> {
        match self.entered.get_mut(node as usize) {
            Some(entered) if !*entered => *entered = true,
            _ => return Ok(()),
        }
        self.open.push(OpenNode { node, arcs: 0 })?;
        Ok(())
    }

    // Goes over the next arc of a node that was entered, or leaves it.
    fn visit(&mut self, lists: &[NodeList], latest: OpenNode) -> Result<(), OutOfMemory> {
        if latest.node as usize >= lists.len() {
            return Ok(());
        }
        match lists[latest.node as usize]
            .as_slice()
            .get(latest.arcs)
            .copied()
        {
            Some(other) => {
                self.open.push(OpenNode {
                    node: latest.node,
                    arcs: latest.arcs.saturating_add(1),
                })?;
                self.enter(other)
            }
            None => {
                self.left.push(latest.node)?;
                Ok(())
            }
        }
    }

    /// Walks from a node on, where it was not entered, in so many steps at most.
    pub(crate) fn walk_from(
        &mut self,
        lists: &[NodeList],
        node: u32,
        most: usize,
    ) -> Result<(), OutOfMemory> {
        self.enter(node)?;
        'steps: for _ in 0..most {
            let Some(latest) = self.open.pop() else {
                break;
            };
            self.visit(lists, latest)?;
        }
        Ok(())
    }

    /// The nodes that were left.
    pub(crate) fn left(&self) -> &[u32] {
        self.left.as_slice()
    }
}
