// What C keeps of a box: its pointer.

ghost use Rattle.std.specs.Prelude.{◌≡◌, IsSome, Some, None, Option};
ghost use Rattle.flow_kept.specs.declared.shared.Shared.{Shared};

use flow_kept::Shared;
use loose_box::Loose;
use std::alloc::Global;
use std::marker::Model;
use std::ptr::null_mut;

/// What a handle points to, as C sees it: nothing of it is read there.
#[repr(C)]
#[derive(Drop)]
pub struct Opaque {
    byte: u8,
}

/// The pointer of a box with a kept program, or none. It has no `Drop`: one that is let go is refused where it is let go.
#[repr(C)]
pub struct Held {
    at: *mut Opaque,
    alloc: Global,
    pub ghost value: { Option Shared },
}

impl Model for Held {
    ghost use Rattle.flow_kept.specs.contracts.shared.Shared.{the_row};
    ghost use Rattle.tacflow_c.specs.Held.{held};
    ghost use Rattle.std.specs.contracts.impls.GlobalAllocator.TheImpl.{ghosts};

    ghost also_owns = { λ h. held (ghosts.dealloc_token h.alloc) the_row h.at h.value };
}

unsafe impl Send for Held {}

impl Held {
    /// None.
    pub(crate) fn none(alloc: Global) -> Held
        ensures { result.value ≡ None }
    {
        Held {
            at: null_mut(),
            alloc,
        }
    }

    /// A box, as its pointer.
    pub(crate) fn of(loose: Loose<Shared, Global>) -> Held
        ensures { result.value ≡ Some loose.value }
    {
        let Loose { at, alloc } = loose;
        Held {
            at: at as *mut Opaque,
            alloc,
        }
    }

    /// The box again.
    pub(crate) fn into_loose(self) -> Loose<Shared, Global>
        requires { IsSome self.value }
        ensures { self.value ≡ Some result.value }
    {
        let Held { at, alloc } = self;
        Loose {
            at: at as *mut Shared,
            alloc,
        }
    }

    /// Gives up what has nothing.
    pub(crate) fn end(self)
        requires { self.value ≡ None }
    {
        let Held { at: _, alloc: _ } = self;
    }
}
