//! Lists of answers.
ghost use Rattle.std.specs.Prelude.{◌≡◌, List, [], Option, ⊤, MatchOption};
ghost use Rattle.mz_context.specs.declared.constants.Constant.{Constant};
ghost use Rattle.mz_ground.specs.declared.clause.Clause.{Clause};
ghost use Rattle.mz_answers.specs.Answers.{answer, AreRight, Has, MayHave};

use crate::answer::Answer;
use mz_ground::hash_places::HashPlaces;
use mz_logic::literal::Literal;
use std::alloc::{AllocError, Global};
use std::marker::Model;

/// Answers that were given about literals, the latest last, with the place of the latest of each hash. How long a look-up
/// takes doesn't grow with their number.
#[derive(Drop)]
pub struct Answers {
    items: Vec<Answer>,
    places: HashPlaces,
}

impl Model for Answers {
    ghost use Rattle.std.specs.Prelude.{List};
    ghost use Rattle.std.specs.Coded.{coded_list};
    ghost use Rattle.mz_answers.specs.declared.answer.Answer.{Answer};
    ghost use Rattle.mz_answers.specs.contracts.answer.Answer.{the_row};

    ghost Value = { List Answer };

    ghost coded = { coded_list the_row.coded };

    ghost view = { λ a. a.items.items };
}

/// So many answers are kept at most.
const MOST_ANSWERS: usize = 65_536;

impl Answers {
    /// No answers.
    #[tactic(auto, using(crate::proofs::AnswerLemmas::none_right))]
    pub fn new(alloc: Global) -> Answers
        ensures none { result ≡ [] }
        ensures right { (cs : List Clause) (ks : List (Option Constant)) → AreRight cs ks result }
    {
        Answers {
            items: Vec::new(alloc),
            places: HashPlaces::new(alloc),
        }
    }

    /// The answer about a literal that has the hash, where one is found.
    #[tactic(auto, using(crate::proofs::AnswerLemmas::found_rules))]
    pub fn find(&self, hash: u64, l: &Literal) -> Option<bool>
        ensures { MatchOption result ⊤ (λ fits. Has self.now l.now fits) }
    {
        let place = self.places.find(hash)?;
        if place < self.items.len() && self.items[place].literal.equals(l) {
            Some(self.items[place].fits)
        } else {
            None
        }
    }

    /// Keeps the answer about a literal with its hash, unless there are 65,536 answers already.
    #[tactic(auto, using(crate::proofs::AnswerLemmas::kept_rules))]
    pub fn keep(
        &mut self,
        alloc: Global,
        hash: u64,
        l: &Literal,
        fits: bool,
    ) -> Result<(), AllocError>
        ensures { MayHave self.old (answer l.now fits) self.new }
    {
        let place = self.items.len();
        if place >= MOST_ANSWERS {
            return Ok(());
        }
        let literal = l.copy(alloc)?;
        self.places.insert(hash, place)?;
        self.items.push(Answer { literal, fits })?;
        Ok(())
    }
}
