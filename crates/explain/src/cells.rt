//! Writes what is known of the stack cells that an instruction reads, such as `[-8..-5] bytes (from 3)`. A cell is a
//! byte of the stack, and -1 is the offset of the last one.
ghost use Rattle.std.specs.Prelude.{◌≡◌, ◌≤◌, ◌+◌, ◌-ℤ◌, ◌++◌, pos, IfSome, OnOk, string_bytes};
ghost use Rattle.semantics.specs.Call.{helper_of};
ghost use Rattle.explain.specs.Here.{Stands, held_here};
ghost use Rattle.explain.specs.Cells.{content_text, cells_text, last_text, run_text, sourced_text, ended_text, left_text, runs_text, of_cells, of_window, of_reach, is_row, reads_cells, cells_read};

use crate::reach::{Reach, reach_of};
use crate::refusal_text::{put_between, put_signed_between};
use crate::sources::{Held, Here, held_here, put_from};
use crate::values::region_name;
use absval::{AbsVal, Window, window_of};
use asm::{put, put_number};
use helper::Helper;
use insn::Insn;
use reaching::CellContent;
use semantics::Region;
use std::alloc::AllocError;
use verify::AbsState;

/// Appends what a stack cell holds: `perhaps unset`, `bytes`, or a pointer such as `pointer: context 16`.
fn put_content(out: &mut String, content: CellContent) -> Result<(), AllocError>
    ensures { OnOk result (string_bytes out.new ≡ string_bytes out.old ++ content_text content) }
{
    match content {
        CellContent::Unset => put(out, "perhaps unset"),
        CellContent::Byte => put(out, "bytes"),
        CellContent::Piece(region, offset) => {
            put(out, "pointer: ")?;
            put(out, region_name(region))?;
            put(out, " ")?;
            put_number(out, i64::from(offset))
        }
    }
}

/// Appends the end of a range of cells, such as `..-5]`, or only the bracket if `first` is also the last.
#[tactic(auto, unfolding(crate::specs::Cells::last_text))]
fn put_last(out: &mut String, first: i64, last: i64) -> Result<(), AllocError>
    ensures { OnOk result (string_bytes out.new ≡ string_bytes out.old ++ last_text first last) }
{
    if first == last {
        put(out, "]")
    } else {
        put_signed_between(out, "..", last, "]")
    }
}

/// Appends a range of stack cells by the offsets of the first and the last, such as `[-8..-5]`, or `[-8]` for one cell.
#[tactic(auto, unfolding(crate::specs::Cells::cells_text))]
fn put_offsets(out: &mut String, first: i64, last: i64) -> Result<(), AllocError>
    ensures { OnOk result (string_bytes out.new ≡ string_bytes out.old ++ cells_text first last) }
{
    put(out, "[")?;
    put_number(out, first)?;
    put_last(out, first, last)
}

/// Returns the offset, from -512 on, of the stack cell with number `place`. Cell 0 is the lowest.
fn offset_of(place: usize) -> i64
    requires { place ≤ 65536 }
    ensures { result ≡ pos place -ℤ pos 512 }
{
    place as i64 - 512
}

/// Returns the offset of the stack cell before the one with number `place`. Cell 0 is the lowest, and has offset -512.
fn offset_before(place: usize) -> i64
    requires { place ≤ 65536 }
    ensures { result ≡ pos place -ℤ pos 513 }
{
    place as i64 - 513
}

/// Appends the stack cells from number `first` up to and excluding `end`, and what they hold, such as `[-8..-5] bytes`.
pub(crate) fn put_run(
    out: &mut String,
    first: usize,
    end: usize,
    content: CellContent,
) -> Result<(), AllocError>
    requires first { first ≤ 65536 }
    requires end { end ≤ 65536 }
    ensures { OnOk result (string_bytes out.new ≡ string_bytes out.old ++ run_text first end content) }
{
    put_offsets(out, offset_of(first), offset_before(end))?;
    put(out, " ")?;
    put_content(out, content)
}

/// Appends the stack cells from number `first` up to and excluding `end`, what they hold, and which units set them,
/// such as `[-8..-5] bytes (from 3)`.
fn put_sourced(out: &mut String, first: usize, end: usize, held: Held) -> Result<(), AllocError>
    requires first { first ≤ 65536 }
    requires end { end ≤ 65536 }
    ensures { OnOk result (string_bytes out.new ≡ string_bytes out.old
        ++ sourced_text first end (held.content, held.setters)) }
{
    put_run(out, first, end, held.content)?;
    put_from(out, held.setters)
}

/// Appends the stack cells from number `first` up to and excluding `end`, what they hold, and which units set them, and
/// then a comma, such as `[-8..-5] bytes (from 3), `.
fn put_ended(out: &mut String, first: usize, end: usize, held: Held) -> Result<(), AllocError>
    requires first { first ≤ 65536 }
    requires end { end ≤ 65536 }
    ensures { OnOk result (string_bytes out.new ≡ string_bytes out.old
        ++ ended_text first end (held.content, held.setters)) }
{
    put_sourced(out, first, end, held)?;
    put(out, ", ")
}

/// Appends how many cells an access may touch besides those that are named, such as `, and 497 more`.
fn put_left(out: &mut String, cells: usize) -> Result<(), AllocError>
    ensures { OnOk result (string_bytes out.new ≡ string_bytes out.old ++ left_text cells) }
{
    put_between(out, ", and ", cells as u64, " more")
}

/// Appends the stack cells from number `first` to `place` + `more` - 1, grouped into runs with the same content, set by
/// the same units. The cells up to and excluding `place` are known to hold `held`. After the first run, at most `most`
/// are named, and then how many cells are left.
fn put_runs(
    out: &mut String,
    here: &Here<'_>,
    most: usize,
    first: usize,
    held: Held,
    place: usize,
    more: usize,
) -> Result<(), AllocError>
    requires stands { Stands here.now }
    requires first { first ≤ 512 }
    requires room { place + more ≤ 512 }
    ensures { OnOk result (string_bytes out.new ≡ string_bytes out.old
        ++ runs_text (held_here here.now) most first (held.content, held.setters) place more) }
{
    if more == 0 {
        return put_sourced(out, first, place, held);
    }
    let next = held_here(here, place);
    if held.is_same(next) {
        return put_runs(out, here, most, first, held, place + 1, more - 1);
    }
    if most == 0 {
        put_sourced(out, first, place, held)?;
        return put_left(out, more);
    }
    put_ended(out, first, place, held)?;
    put_runs(out, here, most - 1, place, next, place + 1, more - 1)
}

/// Appends the `size` stack cells from number `place` on, grouped into runs with the same content, set by the same
/// units. The first eight runs are named. Appends nothing if `size` is 0.
fn put_cells(out: &mut String, here: &Here<'_>, place: usize, size: usize) -> Result<(), AllocError>
    requires stands { Stands here.now }
    requires room { place + size ≤ 512 }
    ensures { OnOk result (string_bytes out.new ≡ string_bytes out.old ++ of_cells (held_here here.now) place size) }
{
    if size == 0 {
        return Ok(());
    }
    put(out, " ; ")?;
    put_runs(
        out,
        here,
        7,
        place,
        held_here(here, place),
        place + 1,
        size - 1,
    )
}

/// Appends the cells of a window of the stack, grouped into runs with the same content, set by the same units. Appends
/// nothing if there is no window.
fn put_window(out: &mut String, here: &Here<'_>, window: Option<Window>) -> Result<(), AllocError>
    requires stands { Stands here.now }
    requires room { IfSome window (λ w. w.place + w.size ≤ 512) }
    ensures { OnOk result (string_bytes out.new ≡ string_bytes out.old ++ of_window (held_here here.now) window) }
{
    match window {
        Some(Window { place, size }) => put_cells(out, here, place, size),
        None => Ok(()),
    }
}

/// Appends the stack cells that an access may touch, grouped into runs with the same content, set by the same units.
/// Appends nothing if `value`, which is what is known of the base register, is not a pointer into the stack.
fn put_reach(
    out: &mut String,
    here: &Here<'_>,
    reach: &Reach,
    value: AbsVal,
) -> Result<(), AllocError>
    requires stands { Stands here.now }
    requires few { reach.now.size ≤ 512 }
    ensures { OnOk result (string_bytes out.new ≡ string_bytes out.old
        ++ of_reach (held_here here.now) reach.now value) }
{
    let AbsVal::Pointer(region, offsets) = value else {
        return Ok(());
    };
    let Region::Stack = region else {
        return Ok(());
    };
    let window = window_of(Region::Stack, offsets, reach.distance, reach.size);
    put_window(out, here, window)
}

/// Checks whether the helper with this number is `send_row`, which reads orders from the stack or the context.
fn is_row(number: i32) -> bool
    ensures { result ≡ is_row (helper_of number) }
{
    match helper::helper_of(number) {
        Some(Helper::SendRow) => true,
        _ => false,
    }
}

/// Checks whether an instruction reads memory: a load, or a call of `send_row`.
fn reads_cells(insn: &Insn) -> bool
    ensures { result ≡ reads_cells insn.now }
{
    match insn {
        Insn::Load { .. } | Insn::LoadSigned { .. } => true,
        Insn::Call { helper } => is_row(*helper),
        _ => false,
    }
}

/// Appends the stack cells that an instruction reads, grouped into runs with the same content, set by the same units.
/// Appends nothing if it reads none.
pub(crate) fn put_cells_read(
    out: &mut String,
    here: &Here<'_>,
    insn: &Insn,
    state: &AbsState,
) -> Result<(), AllocError>
    requires { Stands here.now }
    ensures { OnOk result (string_bytes out.new ≡ string_bytes out.old
        ++ cells_read (held_here here.now) insn.now state.now.registers) }
{
    if !reads_cells(insn) {
        return Ok(());
    }
    match reach_of(insn, state) {
        Some(reach) => put_reach(out, here, &reach, state.known(reach.base)),
        None => Ok(()),
    }
}
