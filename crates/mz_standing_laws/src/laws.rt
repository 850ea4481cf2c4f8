//! What holds of where the reading of an article's items stands, each as the contract of a function that does nothing.
ghost use Rattle.mz_standing_laws.specs.Laws.{StartLaw, ItemLaw, LabelLaw, ContextLaw, LeftLaw, ReservationLaw, TheoremLaw, StatementLaw, DecidedLaw, GroundedLaw};
ghost use Rattle.mz_standing_laws.specs.Headings.{LociLaw, ConditionLaw, HeadingLaw, SchemeLaw};
ghost use Rattle.mz_standing_laws.specs.Added.{UsedLaw, AddedLaw};

/// At its start an article stands soundly, by what its environment part lets in.
pub fn start_law()
    ensures { StartLaw }
{}

/// It stands soundly behind an item of any kind that is owed there; where a statement that derives has a label;
/// in a context that says no more; and with whatever is left of nodes and obligations.
pub fn item_law()
    ensures item { ItemLaw }
    ensures label { LabelLaw }
    ensures context { ContextLaw }
    ensures left { LeftLaw }
{}

/// It stands soundly behind a reservation; behind a theorem and behind a statement where their obligations are decided.
pub fn statement_law()
    ensures reservation { ReservationLaw }
    ensures theorem { TheoremLaw }
    ensures statement { StatementLaw }
{}

/// Where it stands soundly, obligations that are decided by the article's clauses are met by those that stood above them, and
/// reasonings are grounded.
pub fn reasoning_law()
    ensures decided { DecidedLaw }
    ensures grounded { GroundedLaw }
{}

/// In a context with loci one may reason, and a sentence that is justified there derives for all loci from what stands above.
pub fn condition_law()
    ensures loci { LociLaw }
    ensures condition { ConditionLaw }
{}

/// It stands soundly behind a heading and behind a scheme whose items are owed.
pub fn heading_law()
    ensures heading { HeadingLaw }
    ensures scheme { SchemeLaw }
{}

/// Where it stands soundly at its end, its export may be added to the library from whose exports it was let in, and the library
/// stays sound.
pub fn added_law()
    ensures used { UsedLaw }
    ensures added { AddedLaw }
{}
