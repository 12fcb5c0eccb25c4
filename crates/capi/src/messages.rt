//! The sentences that describe statuses and faults, and the C function that writes them: `byzlab_message`.
ghost use Rattle.std.specs.Prelude.{◌≡◌, [], length, map, slice_index_or};
ghost use Rattle.capi.specs.Messages.{message, misspellings, rejections, statuses};
ghost use Rattle.capi.specs.Texts.{overwritten};

use crate::buffer::put_text;
use crate::object_fault::object_message;
use crate::status::{MISSPELT, OBJECT_FAULT, REFUSED};

/// The sentence for each status, by its number.
const STATUSES: &[&str] = &[
    "the call has done its work",
    "the bytes spell no program",
    "the program is rejected",
    "out of memory",
    "the context has the wrong length",
    "no program is loaded",
    "a helper is called that is not allowed",
    "the object has no program for this entry",
    "the buffer is too short for the program",
];

/// The sentence for each fault of bytecode, by its number.
const MISSPELLINGS: &[&str] = &[
    "",
    "the length is not a multiple of 8",
    "no instruction has this opcode",
    "an unused field, or a reserved bit of a wide instruction, is not zero",
    "the second half of a wide instruction is missing",
    "a register above r10 is used",
    "this instruction of the standard is not supported",
    "an operand that selects the instruction has a wrong value",
    "a program has 1 to 4,096 units",
];

/// The sentence for each reason why the verifier rejects a program. Reason V1, which has number 101 in C, is at index
/// 1.
const REJECTIONS: &[&str] = &[
    "",
    "a jump leads to its own unit or backward",
    "a jump leads past the end",
    "a jump leads into the second half of a wide instruction",
    "the last instruction is not the exit",
    "a register is read that may be unset, or of different kinds on different paths",
    "the frame pointer is written",
    "a pointer is misused, or a number is used as an address",
    "an access may leave its region",
    "a stack cell is read that may be unset",
    "the context is written",
    "a helper is called that does not exist",
    "a helper is called with an argument that it does not accept",
    "the program ends with a pointer in r0",
];

/// Returns the sentence for each status, by its number.
fn statuses() -> &'static [&'static str]
    ensures { map (λ m. m.now) result.now ≡ statuses }
{
    STATUSES
}

/// Returns the sentence for each fault of bytecode, by its number, 1 to 8.
fn misspellings() -> &'static [&'static str]
    ensures { map (λ m. m.now) result.now ≡ misspellings }
{
    MISSPELLINGS
}

/// Returns the sentence for each reason why the verifier rejects a program. Reason V1, which has number 101 in C, is at
/// index 1.
fn rejections() -> &'static [&'static str]
    ensures { map (λ m. m.now) result.now ≡ rejections }
{
    REJECTIONS
}

/// Returns the sentence with this index, or an empty text if there is no such sentence.
#[tactic(auto, using(crate::proofs::Sentences::sentence_read, crate::proofs::Sentences::no_sentence))]
fn sentence_at(sentences: &'static [&'static str], index: usize) -> &'static str
    ensures { result.now ≡ slice_index_or (map (λ m. m.now) sentences.now) index [] }
{
    if index < sentences.len() {
        sentences[index]
    } else {
        ""
    }
}

/// Returns the sentence that describes a status. For status 1 and 2, a rejected program, and 7, an object without the
/// program, it describes instead the fault with this number. Returns an empty text if there is no such status or fault.
fn message(status: u32, number: u32) -> &'static str
    ensures { result.now ≡ message status number }
{
    if status == MISSPELT {
        return sentence_at(misspellings(), number as usize);
    }
    if status == REFUSED {
        return sentence_at(rejections(), number.saturating_sub(100) as usize);
    }
    if status == OBJECT_FAULT {
        return object_message(number);
    }
    sentence_at(statuses(), status as usize)
}

/// Writes the sentence that describes a status into `text`. For status 1 and 2, a rejected program, and 7, an object
/// without the program, it describes instead the fault with this number. The sentence is cut if `text` is too short.
/// `needed` receives its whole length in bytes, which is 0 if there is no such status or fault.
#[unsafe(no_mangle)]
pub extern "C" fn byzlab_message(status: u32, number: u32, text: &mut [u8], needed: &mut usize)
    ensures text { text.new ≡ overwritten (message status number) text.old }
    ensures needed { needed.new ≡ length (message status number) }
{
    put_text(message(status, number).as_bytes(), text, needed);
}
