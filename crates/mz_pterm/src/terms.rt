//! Terms, in the order of the grammar.
ghost use Rattle.std.specs.Prelude.{◌≡◌, ◌↔◌, ◌*◌, ◌+◌, ℕ, Bool, IsTrue, true, false};
ghost use Rattle.mz_forms.specs.Reading.{Reads};
ghost use Rattle.mz_tree.specs.Rules.{MayTake, is_several, last_of};
ghost use Rattle.mz_tree.specs.Views.{base_of, operand_of, piece_of, term_of, terms_of};
ghost use Rattle.mz_pterm.specs.Classes.{closes};
ghost use Rattle.mz_pterm.specs.Words.{is_fixed};
ghost use Rattle.mz_pterm.specs.Forms.{
  base_form,
  base_in,
  Boxes,
  bracket,
  bracketed_of,
  last_seen,
  operand_form,
  term_form,
  terms_form,
  ReadsAggregate,
  ReadsBrackets,
  ReadsCall,
  ReadsGroup,
  ReadsPiece,
  ReadsRestOfTerm,
  ReadsRestOfTerms,
  ReadsSelected,
  ReadsSingle,
};

use crate::reader::{Reader, word_of};
use crate::sign::Sign;
use mz_base::place::Place;
use mz_forms::refusal::Refusal;
use mz_tree::chain::{Chain, Next};
use mz_tree::nodes::{BaseNode, OperandNode, PieceNode, PrefixNode, TermNode, TermsNode};
use mz_tree::word::Word;

/// What stands last in a term that is being read.
#[derive(Clone, Copy, Debug, PartialEq, Eq)]
pub enum Last {
    Start,
    Functor,
    Operand,
    /// Several terms in parentheses, which want a functor symbol beside them.
    Several,
}

/// Terms with the places of the brackets around them.
#[derive(Drop)]
pub struct Bracketed {
    pub open: Place,
    pub terms: TermsNode,
    pub close: Place,
}

/// `the U of`, or `the U` alone.
#[derive(Drop)]
pub enum Selected {
    Of(Place, Word, Place),
    Alone(Place, Word),
}

impl Last {
    /// Whether an operand may stand next.
    pub fn takes_operand(self) -> bool
        ensures { IsTrue result ↔ MayTake (last_seen self) }
    {
        match self {
            Last::Start | Last::Functor => true,
            Last::Operand | Last::Several => false,
        }
    }

    /// What stands last once the operand does.
    pub fn after(self, operand: &OperandNode) -> Last
        ensures { last_seen result ≡ last_of (last_seen self) (operand_of operand.now).base }
    {
        match self {
            Last::Start => {
                if is_several(&*operand.base) {
                    Last::Several
                } else {
                    Last::Operand
                }
            }
            Last::Functor | Last::Operand | Last::Several => Last::Operand,
        }
    }
}

/// Whether it is several terms in parentheses.
#[tactic(auto, using(mz_tree::proofs::Views::base_rules))]
fn is_several(base: &BaseNode) -> bool
    ensures { result ≡ is_several (base_of base.now) }
{
    match base {
        BaseNode::Group(_, terms, _) => !terms.more.is_empty(),
        BaseNode::Identifier(_) => false,
        BaseNode::Subject(_) => false,
        BaseNode::Argument(_, _) => false,
        BaseNode::Call(_, _, _) => false,
        BaseNode::CallWith(_, _, _, _) => false,
        BaseNode::Selector(_, _) => false,
        BaseNode::Aggregate(_, _, _, _) => false,
        BaseNode::Brackets(_, _, _) => false,
        BaseNode::Braces(_, _, _) => false,
        BaseNode::Squares(_, _, _) => false,
        BaseNode::SetOf(_, _, _, _, _, _, _, _, _) => false,
        BaseNode::Choice(_, _, _) => false,
        BaseNode::ChoiceStructure(_, _, _) => false,
    }
}

impl Reader<'_> {
    /// Terms with list commas between them. `field` says whether a field's type is read, in which a selector may
    /// stand without `of`, and `room` how many constructs may still be opened within one another.
    #[cycle(terms)]
    pub fn terms(&mut self, field: bool, room: usize) -> Result<TermsNode, Refusal>
        ensures { Reads (terms_form field) room terms_of self.old.rest.now result self.new.rest.now }
    {
        let first = self.term(field, room)?;
        self.rest_of_terms(first, field, room)
    }

    /// The terms that go on with this one.
    #[cycle(terms)]
    pub fn rest_of_terms(
        &mut self,
        first: TermNode,
        field: bool,
        room: usize,
    ) -> Result<TermsNode, Refusal>
        ensures { ReadsRestOfTerms field room (term_of first) self.old.rest.now result self.new.rest.now }
    {
        let mut more = Vec::new(self.alloc);
        'more: while let Some(sign) = self.takes(Sign::ListComma) {
            let tree = self.term(field, room)?;
            more.push(Next { sign, tree })?;
        }
        Ok(Chain { first, more })
    }

    /// A run of functor symbols and operands.
    #[cycle(terms)]
    pub fn term(&mut self, field: bool, room: usize) -> Result<TermNode, Refusal>
        ensures { Reads (term_form field) room term_of self.old.rest.now result self.new.rest.now }
    {
        match self.piece(Last::Start, field, room)? {
            Some((first, last)) => self.rest_of_term(first, last, field, room),
            None => Err(Refusal::Refused),
        }
    }

    /// The term that goes on with this piece.
    #[cycle(terms)]
    pub fn rest_of_term(
        &mut self,
        first: PieceNode,
        mut last: Last,
        field: bool,
        room: usize,
    ) -> Result<TermNode, Refusal>
        ensures { ReadsRestOfTerm field room (last_seen last) (piece_of first) self.old.rest.now result self.new.rest.now }
    {
        let mut more = Vec::new(self.alloc);
        'pieces: while let Some((piece, now_last)) = self.piece(last, field, room)? {
            more.push(piece)?;
            last = now_last;
        }
        match last {
            Last::Start | Last::Several => Err(Refusal::Refused),
            Last::Functor | Last::Operand => Ok(TermNode { first, more }),
        }
    }

    /// The next piece of a term, and what then stands last in it.
    #[cycle(terms)]
    fn piece(
        &mut self,
        last: Last,
        field: bool,
        room: usize,
    ) -> Result<Option<(PieceNode, Last)>, Refusal>
        ensures { ReadsPiece field room (last_seen last) self.old.rest.now result self.new.rest.now }
    {
        let Some((next, rest)) = self.rest.split_first() else {
            return Ok(None);
        };
        let sign = Sign::of(next);
        if sign.is(Sign::Functor) {
            let symbol = word_of(self.alloc, next)?;
            self.rest = rest;
            return Ok(Some((
                PieceNode::Functor(symbol, next.token.priority),
                Last::Functor,
            )));
        }
        if !sign.begins_operand() {
            return Ok(None);
        }
        if !last.takes_operand() {
            return Ok(None);
        }
        let operand = self.operand(field, room)?;
        let last = last.after(&operand);
        Ok(Some((PieceNode::Operand(operand), last)))
    }

    /// An operand: selectors with `of`, and a base.
    #[cycle(terms)]
    pub fn operand(&mut self, field: bool, room: usize) -> Result<OperandNode, Refusal>
        ensures { Reads (operand_form field false) room operand_of self.old.rest.now result self.new.rest.now }
    {
        let mut prefixes = Vec::new(self.alloc);
        let mut behind = false;
        'prefixes: while let Some(selected) = self.selected(field)? {
            match selected {
                Selected::Of(place, selector, of) => {
                    prefixes.push(PrefixNode::Selector(place, selector, of))?;
                    behind = true;
                }
                Selected::Alone(place, selector) => {
                    let base = self.boxed(BaseNode::Selector(place, selector))?;
                    return Ok(OperandNode { prefixes, base });
                }
            }
        }
        let base = self.base(behind, field, room)?;
        Ok(OperandNode { prefixes, base })
    }

    /// `the U of`, or where a field's type is read `the U` alone, or nothing where no `the` comes next.
    fn selected(&mut self, field: bool) -> Result<Option<Selected>, Refusal>
        ensures { (behind : Bool) (room : ℕ) → ReadsSelected field behind room self.old.rest.now result self.new.rest.now }
    {
        let Some(place) = self.takes(Sign::The) else {
            return Ok(None);
        };
        let selector = self.expect_name(Sign::Selector)?;
        match self.takes(Sign::Of) {
            Some(of) => Ok(Some(Selected::Of(place, selector, of))),
            None => {
                if field {
                    Ok(Some(Selected::Alone(place, selector)))
                } else {
                    Err(Refusal::Refused)
                }
            }
        }
    }

    fn boxed(&self, base: BaseNode) -> Result<Box<BaseNode>, Refusal>
        ensures { Boxes base result }
    {
        Ok(Box::new(self.alloc, base)?)
    }

    /// An operand without selectors before it. Several terms in parentheses don't stand behind an `of`.
    #[cycle(terms)]
    fn base(&mut self, behind: bool, field: bool, room: usize) -> Result<Box<BaseNode>, Refusal>
        ensures { Reads (base_form field behind) room base_in self.old.rest.now result self.new.rest.now }
    {
        let Some((next, rest)) = self.rest.split_first() else {
            return Err(Refusal::Refused);
        };
        match Sign::of(next) {
            Sign::Identifier => {
                let name = word_of(self.alloc, next)?;
                self.rest = rest;
                self.call(name, field, room)
            }
            Sign::It => {
                self.rest = rest;
                self.boxed(BaseNode::Subject(next.token.place))
            }
            Sign::Argument(number) => {
                self.rest = rest;
                self.boxed(BaseNode::Argument(next.token.place, number))
            }
            Sign::Open => self.group(behind, field, room),
            Sign::Structure => {
                let name = word_of(self.alloc, next)?;
                self.rest = rest;
                self.aggregate(name, field, room)
            }
            Sign::LeftBracket => self.brackets(field, room),
            Sign::OpenBrace => {
                let inside = self.bracketed(Sign::OpenBrace, Sign::CloseBrace, field, room)?;
                self.boxed(BaseNode::Braces(inside.open, inside.terms, inside.close))
            }
            Sign::OpenSquare => {
                let inside = self.bracketed(Sign::OpenSquare, Sign::CloseSquare, field, room)?;
                self.boxed(BaseNode::Squares(inside.open, inside.terms, inside.close))
            }
            _ => Err(Refusal::Refused),
        }
    }

    /// What begins with an identifier: the identifier alone, or its application.
    #[cycle(terms)]
    fn call(&mut self, name: Word, field: bool, room: usize) -> Result<Box<BaseNode>, Refusal>
        ensures { ReadsCall field room name self.old.rest.now result self.new.rest.now }
    {
        let Some((next, _)) = self.rest.split_first() else {
            return self.boxed(BaseNode::Identifier(name));
        };
        if !Sign::of(next).is(Sign::Open) {
            return self.boxed(BaseNode::Identifier(name));
        }
        let open = self.opens(Sign::Open, room)?;
        if let Some(close) = self.takes(Sign::Close) {
            return self.boxed(BaseNode::Call(name, open, close));
        }
        let terms = self.terms(field, room - 1)?;
        let close = self.expect(Sign::Close)?;
        self.boxed(BaseNode::CallWith(name, open, terms, close))
    }

    /// Terms in parentheses. Several of them don't stand behind an `of`.
    #[cycle(terms)]
    fn group(&mut self, behind: bool, field: bool, room: usize) -> Result<Box<BaseNode>, Refusal>
        ensures { ReadsGroup field behind room self.old.rest.now result self.new.rest.now }
    {
        if behind {
            let inside = self.single(field, room)?;
            self.boxed(BaseNode::Group(inside.open, inside.terms, inside.close))
        } else {
            let inside = self.bracketed(Sign::Open, Sign::Close, field, room)?;
            self.boxed(BaseNode::Group(inside.open, inside.terms, inside.close))
        }
    }

    /// The fields of a structure with this name.
    #[cycle(terms)]
    fn aggregate(&mut self, name: Word, field: bool, room: usize) -> Result<Box<BaseNode>, Refusal>
        ensures { ReadsAggregate field room name self.old.rest.now result self.new.rest.now }
    {
        let inside = self.bracketed(Sign::OpenAggregate, Sign::CloseAggregate, field, room)?;
        self.boxed(BaseNode::Aggregate(name, inside.open, inside.terms, inside.close))
    }

    /// Terms in these brackets.
    #[cycle(terms)]
    pub fn bracketed(
        &mut self,
        opening: Sign,
        closing: Sign,
        field: bool,
        room: usize,
    ) -> Result<Bracketed, Refusal>
        requires opening { is_fixed opening ≡ true }
        requires closing { closes closing ≡ true }
        ensures { Reads (bracket field opening closing) room bracketed_of self.old.rest.now result self.new.rest.now }
    {
        let open = self.opens(opening, room)?;
        let terms = self.terms(field, room - 1)?;
        let close = self.expect(closing)?;
        Ok(Bracketed { open, terms, close })
    }

    /// One term in parentheses.
    #[cycle(terms)]
    fn single(&mut self, field: bool, room: usize) -> Result<Bracketed, Refusal>
        ensures { ReadsSingle field room self.old.rest.now result self.new.rest.now }
    {
        let open = self.opens(Sign::Open, room)?;
        let first = self.term(field, room - 1)?;
        let close = self.expect(Sign::Close)?;
        let more = Vec::new(self.alloc);
        let terms = Chain { first, more };
        Ok(Bracketed { open, terms, close })
    }

    /// Terms in brackets of an environment.
    #[cycle(terms)]
    fn brackets(&mut self, field: bool, room: usize) -> Result<Box<BaseNode>, Refusal>
        ensures { ReadsBrackets field room self.old.rest.now result self.new.rest.now }
    {
        let open = self.opens_name(Sign::LeftBracket, room)?;
        let terms = self.terms(field, room - 1)?;
        let close = self.expect_name(Sign::RightBracket)?;
        self.boxed(BaseNode::Brackets(open, terms, close))
    }
}
