//! What comes of every run's own lines, as the contracts of functions that do nothing.

ghost use Rattle.ot_conform.specs.Laws.{ChosenStepsConform, MessagesConform, PlacesAreNotCounted, PrintedChosenStepsConform, PrintedStepsConform, StepsAreCounted, StepsConform};

/// A port whose lines say what the lines of `steps` say of a schedule's run, with or without documents, conforms; where the run is
/// refused for a limit of the bench alone, the comparison stops there.
pub fn steps_conform()
    ensures { StepsConform }
{}

/// The same of printed bytes: what `steps` prints of a schedule's run, read line by line as `compare_lines` reads what a port printed,
/// conforms.
pub fn printed_steps_conform()
    ensures { PrintedStepsConform }
{}

/// A port whose lines say what some of those lines say, whichever, conforms where lines for some instructions alone are allowed. A limit of
/// the bench counts only where one of them is of where the run ends.
pub fn chosen_steps_conform()
    ensures { ChosenStepsConform }
{}

/// The same of printed bytes: any selection of the lines that `steps` prints of a schedule's run conforms.
pub fn printed_chosen_steps_conform()
    ensures { PrintedChosenStepsConform }
{}

/// A port whose lines say what the lines of `steps` say never gets the answer that nothing is counted.
pub fn steps_are_counted()
    ensures { StepsAreCounted }
{}

/// A port whose lines are places, with clients and messages or without, gets that answer, wherever they agree.
pub fn places_are_not_counted()
    ensures { PlacesAreNotCounted }
{}

/// A port that conforms does so too where its lines have what each instruction received as well, each instruction with its line.
pub fn messages_conform()
    ensures { MessagesConform }
{}
