//! The address of a loaded program, in the form in which a C program stores it.
ghost use Rattle.std.specs.Prelude.{◌≡◌, ◌≢◌, List, Option, None, Some};
ghost use Rattle.insn.specs.declared.insn.Insn.{Insn};

use crate::kept::Kept;
use crate::parts::Parts;
use std::alloc::Global;
use std::marker::Model;

/// The address of a loaded program, which this value owns. If there is no program, the address can be anything. C code
/// only stores it.
#[repr(C)]
#[derive(Drop)]
pub struct Place {
    at: *mut u8,
    pub ghost program: { Option (List Insn) },
}

impl Model for Place {
    ghost use Rattle.std.specs.Prelude.{List};
    ghost use Rattle.std.specs.declared.option.Option.{Option};
    ghost use Rattle.insn.specs.declared.insn.Insn.{Insn};
    ghost use Rattle.capi.specs.Owned.{place_owns};

    ghost also_owns = { λ p. place_owns p.at p.program };
}

impl Place {
    /// Creates a place without a program.
    pub fn none(at: *mut u8) -> Place
        ensures { result.program ≡ None }
    {
        Place { at }
    }

    /// Creates the place of the program that `parts` own.
    pub fn of(parts: Parts<Kept, Global>) -> Place
        ensures { result.program ≡ Some parts.value }
    {
        let Parts { ptr, alloc: _ } = parts;
        Place { at: ptr as *mut u8 }
    }

    /// Returns the program as the parts of a box, which then own it. The place must have a program.
    pub fn into_parts(self, alloc: Global) -> Parts<Kept, Global>
        requires { self.program ≢ None }
        ensures { Some result.value ≡ self.program }
    {
        let Place { at } = self;
        Parts {
            ptr: at as *mut Kept,
            alloc,
        }
    }
}

unsafe impl Send for Place {}
