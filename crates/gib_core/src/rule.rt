//! The build rules of a core, by name.

ghost use Rattle.std.specs.Prelude.{◌≡◌};
ghost use Rattle.gib_core.specs.Rules.{rule_number};

/// A build rule.
#[derive(Clone, Copy)]
pub enum Rule {
    /// Room for a head is kept at an empty place, for a constructor of the type that is due.
    Head,
    /// `here` stands where the open head has a packed field left.
    Room,
    /// `region` binds a packed value.
    Region,
    /// A side of a `par` does not use the other side's variable.
    Sides,
    /// `write` fills the open head, whose packed fields all stand: it names them in their order, and no `case` on one of
    /// them past the first stands before.
    Write,
    /// `point` and a packed call give their value to an empty place.
    Place,
    /// `case` is on a packed value, with an arm for each constructor in declared order and a variable for each field.
    Case,
    /// A variable that is bound is new in its function; one that is used is in scope, and reached where it is a field. A
    /// field is reached once: from the end of the field directly before it, which is reached and on which no `case`
    /// stands before; by the offset that its head stores, where its constructor has offsets; or at the end of the field
    /// directly before it, which is reached, where outside each `par` a call that tells that end is the whole term to
    /// which a variable was bound before in the same line.
    Scope,
    /// Arguments, operands, conditions and results have the types that are due, as many as there are; a scalar is given
    /// where none has a place; a scalar call is the whole right side of a `scalar`.
    Types,
    /// Several parts are given where several parts are due.
    Tuple,
    /// From two to eight variables are bound to the parts of a term.
    Several,
}

impl Rule {
    /// The number by which a refusal names the rule.
    pub fn number(self) -> u8
        ensures { result ≡ rule_number self }
    {
        match self {
            Rule::Head => 1,
            Rule::Room => 2,
            Rule::Region => 3,
            Rule::Sides => 4,
            Rule::Write => 5,
            Rule::Place => 6,
            Rule::Case => 7,
            Rule::Scope => 8,
            Rule::Types => 9,
            Rule::Tuple => 10,
            Rule::Several => 11,
        }
    }
}
