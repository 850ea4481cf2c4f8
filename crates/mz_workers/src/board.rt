//! What workers share under the lock.
ghost use Rattle.std.specs.Prelude.{◌≡◌, [], IfOk, IfErr, OnOk, OnErr};
ghost use Rattle.mz_corpus.specs.Corpus.{Corpus};
ghost use Rattle.mz_desk.specs.Desk.{Answers, Strays, Publishes, Reclaims};
ghost use Rattle.mz_desk.specs.Own.{HasOwnInput, GivesOwnInput};

use mz_axioms::checker::Semantics;
use mz_desk::claim::Claim;
use mz_desk::desk::Desk;
use mz_desk::job::{Done, Strayed};
use std::alloc::{AllocError, Global};
use std::marker::{Brand, Model, PhantomData};

/// The corpus that the workers of a run share. Whoever starts them picks it.
pub trait SharedCorpus {
    ghost corpus: { Corpus };
}

impl SharedCorpus for Brand {
    ghost corpus = { record { articles = []; vocabularies = [] } };
}

/// A desk over the shared corpus. So a job that it gave has its article's own input whenever it is published.
#[derive(Drop)]
pub struct Board<C: Semantics, K: SharedCorpus> {
    desk: Desk<C>,
    of: PhantomData<K>,
}

impl<C: Semantics, K: SharedCorpus> Model for Board<C, K> {
    ghost use Rattle.std.specs.Prelude.{◌≡◌};
    ghost use Rattle.mz_desk.specs.State.{State};
    ghost use Rattle.std.specs.Coded.{codes};
    ghost use Rattle.mz_core.specs.contracts.outcome.Export as export_contract;

    ghost Value = { State };

    ghost coded = { Prim.hlevel (codes, export_contract.the_row.coded) };

    ghost view = { λ b. b.desk };

    ghost invariant = { λ b. b.desk.corpus ≡ K.corpus };
}

impl<C: Semantics, K: SharedCorpus> Board<C, K> {
    /// The board of a desk.
    pub fn new(desk: Desk<C>) -> Board<C, K>
        requires { desk.corpus ≡ K.corpus }
        ensures { result ≡ desk }
    {
        Board {
            desk,
            of: PhantomData,
        }
    }

    /// The first ready row for the worker, as `Desk::claim`. After want of memory nothing has changed.
    pub fn claim(&mut self, alloc: Global, worker: u32) -> Result<Claim, AllocError>
        ensures ok { IfOk result (λ x. Answers self.old worker self.new x) }
        ensures own { IfOk result (λ x. GivesOwnInput C.is_outcome K.corpus.articles x) }
        ensures err { OnErr result (self.new ≡ self.old) }
    {
        self.desk.claim(alloc, worker)
    }

    /// Publishes the result of a job that a board over the shared corpus gave. It takes no memory, and compares no
    /// input.
    ///
    /// # Errors
    /// The result, exactly where its row isn't claimed by its worker, and how the row is; nothing has changed then.
    pub fn publish(&mut self, done: Done<C>) -> Result<(), Strayed<C>>
        requires own { HasOwnInput C.is_outcome K.corpus.articles done.job }
        ensures ok { OnOk result (Publishes self.old self.new done) }
        ensures err { IfErr result (λ s. (self.new ≡ self.old) × (s.done ≡ done) × Strays self.old.corpus.articles self.old.rows done.job s.why) }
    {
        self.desk.publish_own(done)
    }

    /// Takes every claim away. It takes no memory.
    pub fn reclaim(&mut self)
        ensures { Reclaims self.old self.new }
    {
        self.desk.reclaim();
    }

    /// The desk.
    pub fn into_desk(self) -> Desk<C>
        ensures desk { result ≡ self }
        ensures corpus { result.corpus ≡ K.corpus }
    {
        self.desk
    }
}
