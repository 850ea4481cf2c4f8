//! The codes of faults.
ghost use Rattle.std.specs.Prelude.{◌≡◌, true, false};

/// Why an article is rejected: one variant for each row of the table of codes in `docs/FAULTS.md`.
///
/// Each says at which place the fault is reported, and which number comes with it, if one does.
#[derive(Clone, Copy, Debug, PartialEq, Eq)]
pub enum RuleCode {
    /// 10, not built: at the first token of the form.
    NotBuilt,
    /// 11, bad byte: at the byte.
    BadByte,
    /// 12, pragma: at its `::`.
    Pragma,
    /// 13, too many tokens: at token 200,001.
    TooManyTokens,
    /// 14, unexpected token: at the token.
    UnexpectedToken,
    /// 15, too deep: at the token.
    TooDeep,
    /// 16, ends early: at just after the last byte.
    EndsEarly,
    /// 21, vocabulary missing: at the name.
    VocabularyMissing,
    /// 22, bad vocabulary entry: at the name. The number is the line in the vocabulary, from 1.
    BadVocabularyEntry,
    /// 23, bad priority: at the name. The number is the line in the vocabulary, from 1.
    BadPriority,
    /// 24, symbol repeated: at the name. The number is the line in the vocabulary, from 1.
    SymbolRepeated,
    /// 25, symbol of two kinds: at the later name.
    SymbolOfTwoKinds,
    /// 26, too many symbols: at the name.
    TooManySymbols,
    /// 27, missing constructor: at the name. The number is the item of the article that is named, from 1.
    MissingConstructor,
    /// 28, unknown requirement: at the name.
    UnknownRequirement,
    /// 29, not exported: at the name.
    NotExported,
    /// 30, directive of profile 2: at the word.
    DirectiveOfProfile2,
    /// 31, unknown symbol: at the symbol.
    UnknownSymbol,
    /// 32, no notation: at the symbol or the applied identifier.
    NoNotation,
    /// 33, unknown variable: at the identifier, `it`, `$k` or `thesis`.
    UnknownVariable,
    /// 34, unregistered cluster: at the type's first token.
    UnregisteredCluster,
    /// 35, unfit argument: at the symbol or the applied identifier.
    UnfitArgument,
    /// 36, too large: at the expression or step.
    TooLarge,
    /// 41, step does not fit: at the step.
    StepDoesNotFit,
    /// 42, thesis left: at the `end`.
    ThesisLeft,
    /// 43, unknown label: at the reference.
    UnknownLabel,
    /// 44, too many obligations: at the justification.
    TooManyObligations,
    /// 51, condition missing: at the token after the heading's last condition or property. The number is the condition.
    ConditionMissing,
    /// 52, stray condition: at the word. The number is the condition.
    StrayCondition,
    /// 53, bad loci: at the heading.
    BadLoci,
    /// 54, selector repeated: at the selector.
    SelectorRepeated,
    /// 55, ancestor unfit: at the ancestor.
    AncestorUnfit,
    /// 61, open: at the justification. The number is the disjunct, from 1.
    Open,
    /// 62, too many disjuncts: at the justification. The number is the count, at most 1,000,000,000.
    TooManyDisjuncts,
    /// 63, too many terms: at the justification. The number is 4097.
    TooManyTerms,
    /// 64, too many atoms: at the justification. The number is 16385.
    TooManyAtoms,
    /// 65, too much work: at the justification. The number is the work, at most 1,000,000,000.
    TooMuchWork,
    /// 66, scheme does not fit: at the justification.
    SchemeDoesNotFit,
    /// 67, premise count: at the justification. The number is the number of premises that the scheme has.
    PremiseCount,
    /// 68, premise does not fit: at the justification. The number is the premise, from 1.
    PremiseDoesNotFit,
}

/// A row of the table of codes.
#[derive(Clone, Copy)]
struct CodeRow {
    code: u64,
    text: &'static str,
    has_number: bool,
}

impl CodeRow {
    fn plain(code: u64, text: &'static str) -> CodeRow
        ensures code { result.code ≡ code }
        ensures text { result.text.now ≡ text.now }
        ensures has_number { result.has_number ≡ false }
    {
        CodeRow {
            code,
            text,
            has_number: false,
        }
    }

    fn numbered(code: u64, text: &'static str) -> CodeRow
        ensures code { result.code ≡ code }
        ensures text { result.text.now ≡ text.now }
        ensures has_number { result.has_number ≡ true }
    {
        CodeRow {
            code,
            text,
            has_number: true,
        }
    }
}

impl RuleCode {
    ghost use Rattle.mz_base.specs.RuleCode.{code_row};

    fn row(self) -> CodeRow
        ensures code { result.code ≡ (code_row self).code }
        ensures text { result.text.now ≡ (code_row self).text }
        ensures has_number { result.has_number ≡ (code_row self).has_number }
    {
        match self {
            RuleCode::NotBuilt => CodeRow::plain(10, "not built"),
            RuleCode::BadByte => CodeRow::plain(11, "bad byte"),
            RuleCode::Pragma => CodeRow::plain(12, "pragma"),
            RuleCode::TooManyTokens => CodeRow::plain(13, "too many tokens"),
            RuleCode::UnexpectedToken => CodeRow::plain(14, "unexpected token"),
            RuleCode::TooDeep => CodeRow::plain(15, "too deep"),
            RuleCode::EndsEarly => CodeRow::plain(16, "ends early"),
            RuleCode::VocabularyMissing => CodeRow::plain(21, "vocabulary missing"),
            RuleCode::BadVocabularyEntry => CodeRow::numbered(22, "bad vocabulary entry"),
            RuleCode::BadPriority => CodeRow::numbered(23, "bad priority"),
            RuleCode::SymbolRepeated => CodeRow::numbered(24, "symbol repeated"),
            RuleCode::SymbolOfTwoKinds => CodeRow::plain(25, "symbol of two kinds"),
            RuleCode::TooManySymbols => CodeRow::plain(26, "too many symbols"),
            RuleCode::MissingConstructor => CodeRow::numbered(27, "missing constructor"),
            RuleCode::UnknownRequirement => CodeRow::plain(28, "unknown requirement"),
            RuleCode::NotExported => CodeRow::plain(29, "not exported"),
            RuleCode::DirectiveOfProfile2 => CodeRow::plain(30, "directive of profile 2"),
            RuleCode::UnknownSymbol => CodeRow::plain(31, "unknown symbol"),
            RuleCode::NoNotation => CodeRow::plain(32, "no notation"),
            RuleCode::UnknownVariable => CodeRow::plain(33, "unknown variable"),
            RuleCode::UnregisteredCluster => CodeRow::plain(34, "unregistered cluster"),
            RuleCode::UnfitArgument => CodeRow::plain(35, "unfit argument"),
            RuleCode::TooLarge => CodeRow::plain(36, "too large"),
            RuleCode::StepDoesNotFit => CodeRow::plain(41, "step does not fit"),
            RuleCode::ThesisLeft => CodeRow::plain(42, "thesis left"),
            RuleCode::UnknownLabel => CodeRow::plain(43, "unknown label"),
            RuleCode::TooManyObligations => CodeRow::plain(44, "too many obligations"),
            RuleCode::ConditionMissing => CodeRow::numbered(51, "condition missing"),
            RuleCode::StrayCondition => CodeRow::numbered(52, "stray condition"),
            RuleCode::BadLoci => CodeRow::plain(53, "bad loci"),
            RuleCode::SelectorRepeated => CodeRow::plain(54, "selector repeated"),
            RuleCode::AncestorUnfit => CodeRow::plain(55, "ancestor unfit"),
            RuleCode::Open => CodeRow::numbered(61, "open"),
            RuleCode::TooManyDisjuncts => CodeRow::numbered(62, "too many disjuncts"),
            RuleCode::TooManyTerms => CodeRow::numbered(63, "too many terms"),
            RuleCode::TooManyAtoms => CodeRow::numbered(64, "too many atoms"),
            RuleCode::TooMuchWork => CodeRow::numbered(65, "too much work"),
            RuleCode::SchemeDoesNotFit => CodeRow::plain(66, "scheme does not fit"),
            RuleCode::PremiseCount => CodeRow::numbered(67, "premise count"),
            RuleCode::PremiseDoesNotFit => CodeRow::numbered(68, "premise does not fit"),
        }
    }

    /// The number of the code, which the report writes.
    pub fn code(self) -> u64
        ensures { result ≡ (code_row self).code }
    {
        self.row().code
    }

    /// The text of the code, which the report writes after its number.
    pub fn text(self) -> &'static str
        ensures { result.now ≡ (code_row self).text }
    {
        self.row().text
    }

    /// Whether a fault with this code has a number, which the report writes after the text.
    pub fn has_number(self) -> bool
        ensures { result ≡ (code_row self).has_number }
    {
        self.row().has_number
    }
}
