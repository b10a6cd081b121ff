// What holds of the canonical tokens, as the contract of a function that does nothing.
ghost use Rattle.rule_writer.specs.Laws.{FormsAreCanonical};

/// The tokens of a form are those that the table gives.
pub fn forms_are_canonical()
    ensures { FormsAreCanonical }
{}
