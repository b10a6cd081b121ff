// What the definitions of figures give, as the contract of a function that does nothing.
ghost use Rattle.made_scripts.specs.WorkedFigures.{Counted};

/// Lines that are counted, written out: a call is one at the beginning of a line only, also of the last, which has
/// no line feed.
pub fn figures_are_worked()
    ensures { Counted }
{}
