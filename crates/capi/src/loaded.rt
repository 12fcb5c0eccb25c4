//! A loaded program in the form in which a C program stores it.
ghost use Rattle.std.specs.Prelude.{◌≡◌, true, false, None, Some, option_map};
ghost use Rattle.std.specs.Option.{ForSome, ForNone};

use crate::kept::Kept;
use crate::parts::Parts;
use crate::place::Place;
use std::alloc::Global;
use std::mem::replace;
use std::ptr::null_mut;

/// A loaded program, which has memory of its own, or no program. A value of which all bytes are 0 has no program.
#[repr(C)]
#[derive(Drop)]
pub struct Loaded {
    full: bool,
    pub place: Place,
    /// `full` is true exactly if there is a program.
    ghost some: { ForSome place.program (λ _. full ≡ true) },
    ghost none: { ForNone place.program (full ≡ false) },
}

impl Loaded {
    /// Removes the loaded program and returns it. Returns `None` if no program is loaded.
    pub fn take(&mut self, alloc: Global) -> Option<Box<Kept>>
        ensures room { self.new.place.program ≡ None }
        ensures program { option_map (λ b. b.value) result ≡ self.old.place.program }
    {
        if !self.full {
            return None;
        }
        self.full = false;
        let place = replace(&mut self.place, Place::none(nowhere()));
        Some(place.into_parts(alloc).into_box())
    }

    /// Stores a program as the loaded one. Frees the program that was loaded before.
    pub fn put(&mut self, alloc: Global, kept: Box<Kept>)
        ensures { self.new.place.program ≡ Some kept.value }
    {
        let place = Place::of(Parts::of(kept));
        let _gone = self.take(alloc);
        self.place = place;
        self.full = true;
    }
}

/// Returns the null address.
fn nowhere() -> *mut u8 {
    null_mut()
}

/// Does nothing. Only values that may be sent to another thread can be passed to it.
fn crosses<T: Send>(_value: &T) {}

/// Does nothing. It compiles only because a loaded program may be sent to another thread.
pub fn loaded_crosses(loaded: &Loaded) {
    crosses(loaded);
}
