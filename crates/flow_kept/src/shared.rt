// A kept program that several own together.

ghost use Rattle.std.specs.Prelude.{◌≡◌, IfOk};

use crate::OutOfMemory;
use crate::kept::Kept;
use std::alloc::Global;
use std::marker::Model;
use std::sync::Arc;

/// A kept program that several own together: any of them may be in another thread.
#[derive(Drop)]
pub struct Shared {
    kept: Arc<Kept, Global>,
}

impl Model for Shared {
    ghost use Rattle.std.specs.Arc.{arc_value};
    ghost use Rattle.flow_kept.specs.Kept.{KeptProgram};

    ghost Value = { KeptProgram };

    ghost view = { λ shared. arc_value shared.kept };
}

impl Shared {
    /// A kept program with its first owner. Fails only where memory runs out.
    pub fn of(alloc: Global, kept: Kept) -> Result<Shared, OutOfMemory>
        ensures { IfOk result (λ shared. shared ≡ kept) }
    {
        Ok(Shared {
            kept: Arc::new(alloc, kept)?,
        })
    }

    /// A further owner. Fails only where the count of owners is full.
    pub fn share(&self) -> Result<Shared, OutOfMemory>
        ensures { IfOk result (λ shared. shared ≡ self.now) }
    {
        Ok(Shared {
            kept: Arc::try_clone(&self.kept)?,
        })
    }

    /// What is kept.
    pub fn kept(&self) -> &Kept
        ensures { result.now ≡ self.now }
    {
        &self.kept
    }
}
