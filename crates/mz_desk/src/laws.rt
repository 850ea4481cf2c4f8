//! A law of the calls of a desk, the contract of a function that does nothing.
ghost use Rattle.std.specs.Prelude.{◌≡◌, ℕ, List, length};
ghost use Rattle.mz_corpus.specs.Article.{Article};
ghost use Rattle.mz_corpus.specs.Corpus.{IsCorpus};
ghost use Rattle.mz_turns.specs.Row.{Row};
ghost use Rattle.mz_desk.specs.Job.{Job, Done};
ghost use Rattle.mz_desk.specs.State.{State};
ghost use Rattle.mz_desk.specs.Desk.{Answers, Takes, Stands, Strays, Publishes, Reclaims, IsFirstUnsettled};
ghost use Rattle.mz_desk.specs.declared.claim.Claim.{Claim};
ghost use Rattle.mz_desk.specs.declared.job.Why.{Why};

/// What is said of these calls leaves no choice. Where the desk has a row for each article, a claim has one answer
/// and one desk after it, and the job that it gives stands on that desk. A publication that is taken has one desk
/// after it, and so has a reclaim. A result that stands is refused for no reason, and there is one reason at most.
/// One row is the first that isn't settled.
pub fn answers_law()
    ensures claim { (s new newer : State) (w : ℕ) (x y : Claim) → IsCorpus s.corpus → length s.rows ≡ length s.corpus.articles → Answers s w new x → Answers s w newer y → (new ≡ newer) × (x ≡ y) }
    ensures taken { (s new : State) (w : ℕ) (j : Job) → IsCorpus s.corpus → length s.rows ≡ length s.corpus.articles → Takes s w new j → Stands new.corpus.articles new.rows j }
    ensures stands { (c : List Article) (rows : List Row) (j : Job) (why : Why) → Stands c rows j → Strays c rows j why → ⊥ }
    ensures reason { (c : List Article) (rows : List Row) (j : Job) (v w : Why) → Strays c rows j v → Strays c rows j w → v ≡ w }
    ensures publish { (old new newer : State) (d : Done) → Publishes old new d → Publishes old newer d → new ≡ newer }
    ensures reclaim { (old new newer : State) → Reclaims old new → Reclaims old newer → new ≡ newer }
    ensures unsettled { (s : State) (q r : ℕ) → IsFirstUnsettled s q → IsFirstUnsettled s r → q ≡ r }
{}
