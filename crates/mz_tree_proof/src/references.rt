//! Labels, references and simple justifications.
use mz_base::place::Place;
use mz_tree::lists::Separated;
use mz_tree::word::Word;

/// A label and its colon.
pub struct LabelTree {
    pub name: Word,
    pub colon: Place,
}

impl Drop for LabelTree {
    fn drop(self) {
        let LabelTree {
            name: _name,
            colon: _colon,
        } = self;
    }
}

/// The number of a theorem or of a definition.
pub enum NumberTree {
    Theorem(Word),
    Definition { def: Place, number: Word },
}

impl Drop for NumberTree {
    fn drop(self) {
        match self {
            NumberTree::Theorem(_a) => (),
            NumberTree::Definition {
                def: _def,
                number: _number,
            } => (),
        }
    }
}

/// A reference: a label, or numbers of an article.
pub enum ReferenceTree {
    Label(Word),
    Numbered {
        article: Word,
        colon: Place,
        numbers: Separated<NumberTree>,
    },
}

impl Drop for ReferenceTree {
    fn drop(self) {
        match self {
            ReferenceTree::Label(_a) => (),
            ReferenceTree::Numbered {
                article: _article,
                colon: _colon,
                numbers: _numbers,
            } => (),
        }
    }
}

/// A reference to a scheme.
pub enum SchemeReferenceTree {
    Label(Word),
    Numbered {
        article: Word,
        colon: Place,
        sch: Place,
        number: Word,
    },
}

impl Drop for SchemeReferenceTree {
    fn drop(self) {
        match self {
            SchemeReferenceTree::Label(_a) => (),
            SchemeReferenceTree::Numbered {
                article: _article,
                colon: _colon,
                sch: _sch,
                number: _number,
            } => (),
        }
    }
}

/// The references that a scheme is applied to, in parentheses.
pub struct PremisesTree {
    pub left: Place,
    pub references: Separated<ReferenceTree>,
    pub right: Place,
}

impl Drop for PremisesTree {
    fn drop(self) {
        let PremisesTree {
            left: _left,
            references: _references,
            right: _right,
        } = self;
    }
}

/// A justification without a proof.
pub enum SimpleTree {
    Nothing,
    By {
        by: Place,
        references: Separated<ReferenceTree>,
    },
    From {
        from: Place,
        scheme: SchemeReferenceTree,
        premises: Option<PremisesTree>,
    },
}

impl Drop for SimpleTree {
    fn drop(self) {
        match self {
            SimpleTree::Nothing => (),
            SimpleTree::By {
                by: _by,
                references: _references,
            } => (),
            SimpleTree::From {
                from: _from,
                scheme: _scheme,
                premises: _premises,
            } => (),
        }
    }
}
