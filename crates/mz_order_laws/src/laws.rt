//! Laws of orders and of made articles, each the contract of a function that does nothing.
ghost use Rattle.std.specs.Prelude.{◌≡◌, ◌≤◌, ℕ, List, Some};
ghost use Rattle.mz_base.specs.declared.name.Name.{Name};
ghost use Rattle.mz_io.specs.declared.file.File.{File};
ghost use Rattle.mz_words.specs.Words.{Asked, order_of};
ghost use Rattle.mz_gen.specs.Made.{AreMadeFiles, AreMadeNames};
ghost use Rattle.mz_order_laws.specs.Bounds.{IsBounded};

/// An order has 1 to 16 workers, and asks for 1 to 512 made articles where it asks for any.
pub fn bounds_law()
    ensures { (words : List (List ℕ)) (a : Asked) → order_of words ≡ Some a → IsBounded a }
{}

/// There is one list of made files of a length, and one of their names.
pub fn made_law()
    ensures files { (n : ℕ) (files others : List File) → AreMadeFiles n files → AreMadeFiles n others → files ≡ others }
    ensures names { (n : ℕ) (names others : List Name) → AreMadeNames n names → AreMadeNames n others → names ≡ others }
{}
