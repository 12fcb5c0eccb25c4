//! Turns the faults of ELF objects into numbers for C, and describes them.
ghost use Rattle.std.specs.Prelude.{◌≡◌, ℕ, List};
ghost use Rattle.capi.specs.Objects.{damage_number, damage_place, object_number, object_place, object_message};

use crate::fault::NumberedFault;
use object::{Damage, ObjectFault, sentence};

/// Returns the number of a damage of an object for C: 202 if it is in the header or the section headers, 207 in a
/// section, 208 in a function, and 209 in relocations.
fn damage_number(damage: Damage) -> u32
    ensures { result ≡ damage_number damage }
{
    match damage {
        Damage::Sections => 202,
        Damage::Section(_) => 207,
        Damage::Symbol(_) => 208,
        Damage::Relocations(_) => 209,
    }
}

/// Returns where an object is damaged: the index of a section or of a symbol, or 0 for the header.
fn damage_place(damage: Damage) -> usize
    ensures { result ≡ damage_place damage }
{
    match damage {
        Damage::Sections => 0,
        Damage::Section(index) => index,
        Damage::Symbol(index) => index,
        Damage::Relocations(index) => index,
    }
}

/// Returns the number of an object's fault for C: 201 to 206 for the faults O1 to O6, and for O2 that of the damage.
fn object_number(fault: ObjectFault) -> u32
    ensures { result ≡ object_number fault }
{
    match fault {
        ObjectFault::NoObject => 201,
        ObjectFault::Damaged(damage) => damage_number(damage),
        ObjectFault::NoFunction => 203,
        ObjectFault::Several => 204,
        ObjectFault::Names(_) => 205,
        ObjectFault::Leaves(_) => 206,
    }
}

/// Returns the place of an object's fault: where the object is damaged, or the unit of the entry's code with the fault,
/// and 0 for other faults.
fn object_place(fault: ObjectFault) -> usize
    ensures { result ≡ object_place fault }
{
    match fault {
        ObjectFault::NoObject => 0,
        ObjectFault::Damaged(damage) => damage_place(damage),
        ObjectFault::NoFunction => 0,
        ObjectFault::Several => 0,
        ObjectFault::Names(unit) => unit,
        ObjectFault::Leaves(unit) => unit,
    }
}

/// Returns the number and the place of an object's fault for C.
pub fn object_fault(fault: ObjectFault) -> NumberedFault
    ensures number { result.number ≡ object_number fault }
    ensures place { result.unit ≡ object_place fault }
{
    NumberedFault {
        number: object_number(fault),
        unit: object_place(fault),
    }
}

/// Returns the sentence that describes the fault of an object with this number, or an empty text if there is no such
/// fault.
pub fn object_message(number: u32) -> &'static str
    ensures { result.now ≡ object_message number }
{
    match number {
        201 => sentence(ObjectFault::NoObject),
        202 => sentence(ObjectFault::Damaged(Damage::Sections)),
        203 => sentence(ObjectFault::NoFunction),
        204 => sentence(ObjectFault::Several),
        205 => sentence(ObjectFault::Names(0)),
        206 => sentence(ObjectFault::Leaves(0)),
        207 => sentence(ObjectFault::Damaged(Damage::Section(0))),
        208 => sentence(ObjectFault::Damaged(Damage::Symbol(0))),
        209 => sentence(ObjectFault::Damaged(Damage::Relocations(0))),
        _ => "",
    }
}
