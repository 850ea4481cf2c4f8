//! The words of directives, conditions, properties and notations.
ghost use Rattle.std.specs.Prelude.{◌≡◌};
ghost use Rattle.mz_tree_part.specs.Keywords.{directive_word, condition_word, property_word, notation_word};

/// The word of a directive.
#[derive(Clone, Copy, Debug, PartialEq, Eq)]
pub enum DirectiveWord {
    Vocabularies,
    Notations,
    Constructors,
    Registrations,
    Definitions,
    Equalities,
    Expansions,
    Theorems,
    Schemes,
    Requirements,
}

impl DirectiveWord {
    /// The word itself.
    pub fn spelling(&self) -> &'static [u8]
        ensures { result.now ≡ directive_word self.now }
    {
        match self {
            DirectiveWord::Vocabularies => b"vocabularies",
            DirectiveWord::Notations => b"notations",
            DirectiveWord::Constructors => b"constructors",
            DirectiveWord::Registrations => b"registrations",
            DirectiveWord::Definitions => b"definitions",
            DirectiveWord::Equalities => b"equalities",
            DirectiveWord::Expansions => b"expansions",
            DirectiveWord::Theorems => b"theorems",
            DirectiveWord::Schemes => b"schemes",
            DirectiveWord::Requirements => b"requirements",
        }
    }
}

/// The word of a condition.
#[derive(Clone, Copy, Debug, PartialEq, Eq)]
pub enum ConditionWord {
    Existence,
    Uniqueness,
    Coherence,
    Compatibility,
    Consistency,
    Correctness,
    Reducibility,
}

impl ConditionWord {
    /// The word itself.
    pub fn spelling(&self) -> &'static [u8]
        ensures { result.now ≡ condition_word self.now }
    {
        match self {
            ConditionWord::Existence => b"existence",
            ConditionWord::Uniqueness => b"uniqueness",
            ConditionWord::Coherence => b"coherence",
            ConditionWord::Compatibility => b"compatibility",
            ConditionWord::Consistency => b"consistency",
            ConditionWord::Correctness => b"correctness",
            ConditionWord::Reducibility => b"reducibility",
        }
    }
}

/// The word of a property.
#[derive(Clone, Copy, Debug, PartialEq, Eq)]
pub enum PropertyWord {
    Reflexivity,
    Irreflexivity,
    Symmetry,
    Asymmetry,
    Connectedness,
    Commutativity,
    Idempotence,
    Involutiveness,
    Projectivity,
    Sethood,
}

impl PropertyWord {
    /// The word itself.
    pub fn spelling(&self) -> &'static [u8]
        ensures { result.now ≡ property_word self.now }
    {
        match self {
            PropertyWord::Reflexivity => b"reflexivity",
            PropertyWord::Irreflexivity => b"irreflexivity",
            PropertyWord::Symmetry => b"symmetry",
            PropertyWord::Asymmetry => b"asymmetry",
            PropertyWord::Connectedness => b"connectedness",
            PropertyWord::Commutativity => b"commutativity",
            PropertyWord::Idempotence => b"idempotence",
            PropertyWord::Involutiveness => b"involutiveness",
            PropertyWord::Projectivity => b"projectivity",
            PropertyWord::Sethood => b"sethood",
        }
    }
}

/// The word of a notation.
#[derive(Clone, Copy, Debug, PartialEq, Eq)]
pub enum NotationWord {
    Synonym,
    Antonym,
}

impl NotationWord {
    /// The word itself.
    pub fn spelling(&self) -> &'static [u8]
        ensures { result.now ≡ notation_word self.now }
    {
        match self {
            NotationWord::Synonym => b"synonym",
            NotationWord::Antonym => b"antonym",
        }
    }
}
