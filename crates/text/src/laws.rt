//! A law about written numbers. The function does nothing, and its contract is the law.
ghost use Rattle.text.specs.Laws.{DigitsAreWorth};

/// States which characters are the digits of base ten and of base sixteen. States also that a digit with k digits after
/// it counts as the digit times the base to the power k.
pub fn digits_are_worth()
    ensures { DigitsAreWorth }
{}
