//! What comes of headings of definitions: of predicates and attributes, of functors, modes and abbreviations, and of the conditions behind them.
#![tactic(auto)]
