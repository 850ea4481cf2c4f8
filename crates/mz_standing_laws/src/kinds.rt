//! What holds of the kinds of an article's parts.
ghost use Rattle.mz_standing.specs.declared.standing.Standing.{Standing};
ghost use Rattle.mz_taken.specs.Taken.{Taken};
ghost use Rattle.mz_standing_laws.specs.Kinds.{GrowsAllLaw, KeepsAllLaw};

/// A kind of parts: its trees, and to what each leads.
pub trait Kind {
    type Tree;

    ghost takes: { Standing → Self.Tree → Taken Standing → Type 0 };
}

/// Where the clauses only grow and it stays sound by one member of a list, they do and it does by the list.
pub fn one_by_one_law<K: Kind>()
    ensures grows { GrowsAllLaw K.takes }
    ensures keeps { KeepsAllLaw K.takes }
{}
