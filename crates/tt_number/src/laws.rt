//! Laws about the definitions, each proved as the contract of a function that does nothing.
ghost use Rattle.tt_number.specs.Division.{DivisionRoundsDown};
ghost use Rattle.tt_number.specs.Numerals.{ReadingLaw, DecimalLaw};

/// A text is read as what the grammar of expr(n) says that it spells, and as nothing else.
pub fn texts_are_read_by_the_grammar()
    ensures { ReadingLaw }
{}

/// The decimal text of a number is read as that number.
pub fn decimal_texts_are_read_back()
    ensures { DecimalLaw }
{}

/// `/` and `%` of expr(n) divide and round down, and the remainder has the divisor's sign.
pub fn division_rounds_down()
    ensures { DivisionRoundsDown }
{}
