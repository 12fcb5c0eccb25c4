//! Finds what the verifier knows of one cell, which is one of the 512 bytes of the stack.
ghost use Rattle.std.specs.Prelude.{◌≡◌, ◌≤◌, ◌+◌, IfSome};
ghost use Rattle.semantics.specs.Memory.{is_same_region};
ghost use Rattle.reaching.specs.Contents.{pointer_from, pointer_over, content_in, held_at, same_content};

use absmem::AbsStack;
use absval::Offset;
use semantics::Region;

/// What the verifier knows of a cell, which is one of the 512 bytes of the stack.
#[derive(Clone, Copy)]
pub enum CellContent {
    /// Nothing. The cell may be unset, or have different contents on different paths.
    Unset,
    /// The cell contains a byte of a number.
    Byte,
    /// The cell contains one of the eight pieces of a pointer that is stored as a whole. The fields are the pointer's
    /// region and offset.
    Piece(Region, i32),
}

/// Returns the pointer that is known to be stored in the eight cells from cell `place` on. Returns `None` if no whole
/// pointer is known to be there.
fn pointer_from(stack: &AbsStack, place: usize) -> Option<(Region, Offset)>
    ensures { result ≡ pointer_from stack.now place }
{
    if place > 504 {
        return None;
    }
    stack.pointer_at(place)
}

/// Returns the first pointer that is known to be stored from cell `place` on, or from one of the cells below it. The
/// search goes down from `place` over `tries` cells. Returns `None` if it finds no pointer.
fn pointer_over(stack: &AbsStack, place: usize, tries: usize) -> Option<(Region, Offset)>
    ensures { result ≡ pointer_over stack.now place tries }
{
    if tries == 0 {
        return None;
    }
    if let Some(pointer) = pointer_from(stack, place) {
        return Some(pointer);
    }
    pointer_over(stack, place.saturating_sub(1), tries - 1)
}

/// Returns what the verifier knows of cell `place` of the stack. The caller promises that there is such a cell.
fn content_in(stack: &AbsStack, place: usize) -> CellContent
    requires { place + 1 ≤ 512 }
    ensures { result ≡ content_in stack.now place }
{
    if stack.has_bytes(place, 1) {
        return CellContent::Byte;
    }
    match pointer_over(stack, place, 8) {
        Some((region, offset)) => CellContent::Piece(region, offset.at),
        None => CellContent::Unset,
    }
}

/// Returns what the verifier knows of cell `place` of the stack. Returns `Unset` if there is no such cell, because
/// `place` is 512 or more.
#[inline(never)]
pub fn held_at(stack: &AbsStack, place: usize) -> CellContent
    ensures { result ≡ held_at stack.now place }
{
    if place >= 512 {
        return CellContent::Unset;
    }
    content_in(stack, place)
}

/// Checks whether two regions are equal.
fn is_same_region(a: Region, b: Region) -> bool
    ensures { result ≡ is_same_region a b }
{
    match (a, b) {
        (Region::Stack, Region::Stack) | (Region::Context, Region::Context) => true,
        (Region::Stack, Region::Context) | (Region::Context, Region::Stack) => false,
    }
}

impl CellContent {
    /// Checks whether the same is known of two cells.
    pub fn is_same(self, other: CellContent) -> bool
        ensures { result ≡ same_content self other }
    {
        match (self, other) {
            (CellContent::Unset, CellContent::Unset) | (CellContent::Byte, CellContent::Byte) =>
                true,
            (CellContent::Piece(region, offset), CellContent::Piece(second, place)) => {
                is_same_region(region, second) && offset == place
            }
            _ => false,
        }
    }
}
