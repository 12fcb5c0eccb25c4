//! States laws about the texts of chronicles. Each function does nothing, and its contract is the law.
ghost use Rattle.trace.specs.Laws.{NamesAreTold, SoundTextsAreRuns};
ghost use Rattle.trace.specs.SignedLaws.{SignedNamesAreTold, SignedTextsAreReplays, SoundSignedTextsAreRuns};

/// States that the access lines in a chronicle's text name the same generals, round by round, as the chronicle's
/// accesses.
pub fn names_are_told()
    ensures { NamesAreTold }
{}

/// States that the audit accepts exactly the texts of complete runs. The audit replays the accesses that a text lists,
/// and compares the result with the text.
pub fn sound_texts_are_runs()
    ensures { SoundTextsAreRuns }
{}

/// States that the access lines in a signed chronicle's text name the same generals, round by round, as the chronicle's
/// accesses.
pub fn signed_names_are_told()
    ensures { SignedNamesAreTold }
{}

/// States that for each complete run of a signed campaign, replaying the accesses of its chronicle gives a chronicle
/// with the same text.
pub fn signed_texts_are_replays()
    ensures { SignedTextsAreReplays }
{}

/// States that the audit of signed chronicles accepts exactly the texts of complete runs of signed campaigns.
pub fn sound_signed_texts_are_runs()
    ensures { SoundSignedTextsAreRuns }
{}
