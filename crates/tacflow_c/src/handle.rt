// What C keeps between calls.

ghost use Rattle.std.specs.Prelude.{◌≡◌, IsSome, None, Some, OnErr, OnOk, IfErr, IfOk, is_some};
ghost use Rattle.flow_kept.specs.declared.shared.Shared.{Shared};
ghost use Rattle.tac_reader.specs.Parses.{program_of};
ghost use Rattle.flow_records.specs.Faults.{IsMemoryFault, HasGraph, IsFaultOf};
ghost use Rattle.tacflow_c.specs.Handles.{IsOpenFault};

use crate::held::Held;
use flow_kept::{KeepFault, Kept, Shared};
use flow_records::Fault;
use loose_box::Loose;
use std::alloc::Global;
use std::mem::replace;
use tac_program::Limits;

/// A handle: the pointer of a box with a kept program while it is open.
#[repr(C)]
pub struct Handle {
    pub(crate) is_open: bool,
    pub(crate) held: Held,
    ghost fits: { is_open ≡ is_some held.value },
}

impl Handle {
    /// Opens a closed handle with a box.
    pub(crate) fn put(&mut self, shared: Box<Shared>)
        requires { self.old.held.value ≡ None }
        ensures { self.new.held.value ≡ Some shared.value }
    {
        replace(&mut self.held, Held::of(Loose::of(shared))).end();
        self.is_open = true;
    }

    /// Takes the box of an open handle, which is closed then.
    pub(crate) fn take(&mut self, alloc: Global) -> Box<Shared>
        requires { IsSome self.old.held.value }
        ensures value { self.old.held.value ≡ Some result.value }
        ensures none { self.new.held.value ≡ None }
    {
        let held = replace(&mut self.held, Held::none(alloc));
        self.is_open = false;
        held.into_loose().into_box()
    }
}

/// Opens a closed handle with what is kept.
pub(crate) fn put_shared(alloc: Global, shared: Shared, handle: &mut Handle) -> Result<(), Fault>
    requires { handle.old.held.value ≡ None }
    ensures opened { OnOk result (handle.new.held.value ≡ Some shared) }
    ensures kept { OnErr result (handle.new.held.value ≡ None) }
    ensures fault { IfErr result IsMemoryFault }
{
    match Box::new(alloc, shared) {
        Ok(shared) => {
            handle.put(shared);
            Ok(())
        }
        Err(_) => Err(Fault::OutOfMemory),
    }
}

// The program of a text within limits, kept.
fn keep(alloc: Global, text: &[u8], limits: Limits) -> Result<Shared, Fault>
    ensures kept { IfOk result (λ shared. shared ≡ record { program = program_of text.now; limits = limits }) }
    ensures graph { OnOk result (HasGraph limits text.now) }
    ensures fault { IfErr result (IsFaultOf limits text.now) }
{
    match Kept::read(alloc, text, limits) {
        Ok(kept) => Ok(Shared::of(alloc, kept)?),
        Err(KeepFault::Refused(refusal)) => Err(Fault::Refused(refusal)),
        Err(KeepFault::TooManyPoints) => Err(Fault::TooManyPoints),
        Err(KeepFault::TooManyBits) => Err(Fault::TooManyBits),
        Err(KeepFault::OutOfMemory) => Err(Fault::OutOfMemory),
    }
}

/// Opens a closed handle with the program of a text within limits.
pub(crate) fn open_text(
    alloc: Global,
    text: &[u8],
    limits: Limits,
    handle: &mut Handle,
) -> Result<(), Fault>
    ensures graph { OnOk result (HasGraph limits text.now) }
    ensures was_closed { OnOk result (handle.old.held.value ≡ None) }
    ensures opened { OnOk result (handle.new.held.value ≡ Some (record { program = program_of text.now; limits = limits })) }
    ensures kept { OnErr result (handle.new.held.value ≡ handle.old.held.value) }
    ensures fault { IfErr result (IsOpenFault limits text.now handle.old.held.value) }
{
    if handle.is_open {
        return Err(Fault::BadHandle);
    }
    let shared = keep(alloc, text, limits)?;
    put_shared(alloc, shared, handle)
}
