//! What holds of short numbers: functions that do nothing, whose contracts are laws.

ghost use Rattle.short_numbers.specs.Laws.{LimitsAgree, NumbersAreRead, NumbersAreSpelledOnce};

/// States that the limits of the code are those of the definitions.
pub fn limits_agree()
    ensures { LimitsAgree }
{}

/// States that a number that is spelled is read, and what stands behind it is left.
pub fn numbers_are_read()
    ensures { NumbersAreRead }
{}

/// States that a number that is read is spelled so, and has a spelling. So no two spellings are of one number, and none is the front of
/// another.
pub fn numbers_are_spelled_once()
    ensures { NumbersAreSpelledOnce }
{}
