//! What holds of each environment that is let in, and of one behind which own items are put.
ghost use Rattle.mz_env_laws.specs.LetInLaws.{ClosedLaw, RowClausesLaw, GivenRowsLaw, JoinedRowsLaw, ClauseLaw};
ghost use Rattle.mz_env_laws.specs.Entries.{EntryLaw, OwnPartLaw, OwnItemLaw};
ghost use Rattle.mz_env_laws.specs.Used.{UsedLaw};
ghost use Rattle.mz_env_laws.specs.DerivedLaws.{SaidLaw, ClausesLaw, UnfoldingsLaw, StatementsLaw, SchemesLaw};

/// It has no constant and no loose index.
pub fn closed_law()
    ensures { ClosedLaw }
{}

/// The clauses of each row and each structure are among its typing clauses. So they are where items are put behind it.
pub fn row_clauses_law()
    ensures let_in { RowClausesLaw }
    ensures given { GivenRowsLaw }
    ensures both { JoinedRowsLaw }
{}

/// Each of its clauses is one of an export's.
pub fn clause_law()
    ensures { ClauseLaw }
{}

/// Each of its entries is what an item of an export gives to that list, numbered as the item stands in its article. So it
/// is of an article's own items that are put behind it in their order.
pub fn entry_law()
    ensures let_in { EntryLaw }
    ensures own_part { OwnPartLaw }
    ensures own_item { OwnItemLaw }
{}

/// The items are of exports that the environment part uses: of HIDDEN's, of those that its directives name, and of those on which one of
/// these depends.
pub fn used_law()
    ensures { UsedLaw }
{}

/// Where what the items of the exports grant and owe without premises derives, as it does with these statements as axioms,
/// each clause derives, each unfolding is as much as its definiens, and each statement that may be cited derives; and where what they
/// owe from premises derives too, so does each scheme that may be cited.
pub fn derived_law()
    ensures said { SaidLaw }
    ensures clauses { ClausesLaw }
    ensures unfoldings { UnfoldingsLaw }
    ensures statements { StatementsLaw }
    ensures schemes { SchemesLaw }
{}
