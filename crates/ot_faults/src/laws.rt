//! What is wanted is what `ot_asm` takes, each law as the contract of a function that does nothing.

ghost use Rattle.ot_faults.specs.Laws.{NumbersAreTaken, StagesAreMade, WordsAreTaken};

/// Where the lines before a line have no fault, the stage and the number of clients that they make are those that `ot_asm` makes of them.
pub fn stages_are_made()
    ensures { StagesAreMade }
{}

/// Below such lines `ot_asm` takes the first word of a line exactly where it is one of the words that are wanted there: each word that is listed is
/// taken, and each that is taken is listed.
pub fn words_are_taken()
    ensures { WordsAreTaken }
{}

/// Of such a line it takes the number behind that word exactly where it is in the range that is wanted.
pub fn numbers_are_taken()
    ensures { NumbersAreTaken }
{}
