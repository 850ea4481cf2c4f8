//! Laws of reasonings, each the contract of a function that does nothing. They are proved for every property of contexts by
//! which what is read stands; a proof of a crate above cites the lemma that is named here, with the property that it has.
ghost use Rattle.mz_context.specs.declared.context.Context.{Context};
ghost use Rattle.mz_walk_laws.specs.WalkLaws.{SkeletonLaw, JustificationLaw, StatementLaw};
ghost use Rattle.mz_walk_laws.specs.MadeLaws.{JustificationMadeLaw, StatementMadeLaw};

/// A property of contexts.
pub trait Wholeness {
    ghost whole: { Context → Type 0 };
}

/// Where the obligations of a proof's steps are met, its thesis derives.
pub fn skeleton_law<W: Wholeness>()
    ensures { SkeletonLaw W.whole }
{}

/// Where the obligations of a justification are met, the sentence derives.
pub fn justification_law<W: Wholeness>()
    ensures { JustificationLaw W.whole }
{}

/// Where the obligations of a statement of the article's own level are met, what derives behind it derives before it.
pub fn statement_law<W: Wholeness>()
    ensures { StatementLaw W.whole }
{}

/// Each obligation says how much stood above its place, and has the clauses of the letters in force there.
pub fn made_law()
    ensures justification { JustificationMadeLaw }
    ensures statement { StatementMadeLaw }
{}
