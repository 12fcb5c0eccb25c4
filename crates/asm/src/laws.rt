//! Laws of the assembler. Each function does nothing, and its contract is the law.
ghost use Rattle.asm.specs.Laws.{RegistersAreNumbered, MnemonicsAreNamed, HelpersAreNumbered, FaultsAreFirst};
ghost use Rattle.asm.specs.Names.{JumpsLeadToNames};

/// States that exactly the texts `r0` to `r10` are read as registers, each as the one with this number, and that
/// registers are written so.
pub fn registers_are_numbered()
    ensures { RegistersAreNumbered }
{}

/// States that each mnemonic in the table is read from its own word, and from no other.
pub fn mnemonics_are_named()
    ensures { MnemonicsAreNamed }
{}

/// States that each helper is read from its own name, and from no other word. Its number is its position in the list of
/// names, counted from 1.
pub fn helpers_are_numbered()
    ensures { HelpersAreNumbered }
{}

/// States that a jump to a name leads to the first instruction after the name, on the same line or a later one.
pub fn jumps_lead_to_names()
    ensures { JumpsLeadToNames }
{}

/// States that a text is rejected with its first fault and its line. Faults of single lines come first, then a wrong
/// number of units, then jumps whose target does not exist or is too far away.
pub fn faults_are_first()
    ensures { FaultsAreFirst }
{}
