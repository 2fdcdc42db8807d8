// What holds of every word: functions that do nothing, whose contracts are laws.
ghost use Rattle.program_words.specs.Numbers.{NumbersArePrinted};

/// Law: a word gives a number exactly where it is one within the bounds as it is printed.
pub fn numbers_are_as_printed()
    ensures { NumbersArePrinted }
{}
