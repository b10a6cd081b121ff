// What holds of reading a line, as the contract of a function that does nothing.
ghost use Rattle.rule_reader.specs.Laws.{IsReadByTable, OperandsTellForms};

/// A line is read as the table of forms says, operand by operand, and is refused where the table refuses it.
pub fn lines_are_read_by_the_table()
    ensures { IsReadByTable }
{}

/// Two lines whose operands are the same are one form.
pub fn operands_tell_forms()
    ensures { OperandsTellForms }
{}
