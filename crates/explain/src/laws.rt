//! Laws of explanations. Each function does nothing, and its contract is the law.
ghost use Rattle.explain.specs.Laws.{RefusalsAreTold, HelpsMend, NamesAreRead};

/// Does nothing. Its contract says that every fault that the verifier finds is at an instruction, and has a sentence.
pub fn refusals_are_told()
    ensures { RefusalsAreTold }
{}

/// Does nothing. Its contract says that if an edit is offered as a help, the verifier gets past the rejected
/// instruction in the edited program. It also says that the verifier accepts this program if the help says so.
pub fn helps_mend()
    ensures { HelpsMend }
{}

/// Does nothing. Its contract says that the assembler knows each helper by its name, and that its list of names has
/// exactly one for each helper.
pub fn names_are_read()
    ensures { NamesAreRead }
{}
