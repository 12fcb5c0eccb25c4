//! Laws of surveys. Each function does nothing, and its contract is the law.
ghost use Rattle.surveys.specs.Heads.{HeadsTellFamilies};
ghost use Rattle.surveys.specs.Laws.{KeptAreSound, WrittenAreParts};
ghost use Rattle.surveys.specs.Sums.{SumsOfParts};

/// Does nothing. Its contract says that if a survey is cut into two parts, their counts add up to the counts of the
/// whole survey.
pub fn sums_of_parts()
    ensures { SumsOfParts }
{}

/// Does nothing. Its contract says that if the bound of a seed's campaign holds, its loyal lieutenants decide alike and
/// obey a loyal commander.
pub fn kept_are_sound()
    ensures { KeptAreSound }
{}

/// Does nothing. Its contract says that two families with the same head draw the same campaign from each seed.
pub fn heads_tell_families()
    ensures { HeadsTellFamilies }
{}

/// Does nothing. Its contract says that a family's head and the lines of campaigns after it are a valid part of a
/// survey, and that this part describes exactly these campaigns.
pub fn written_are_parts()
    ensures { WrittenAreParts }
{}
