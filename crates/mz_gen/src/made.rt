//! Made articles: article i, from 0, is named `G` and i in four digits, and depends on article (i - 1) / 2 and, where that
//! is another, on article i - 3.
ghost use Rattle.std.specs.Prelude.{◌≡◌, ◌+◌, ◌++◌, ◌<◌, ◌≤◌, ◌/◌, ◌%◌, ℕ, List, IfOk, OnOk, Some, codes, length};
ghost use Rattle.mz_base.specs.Name.{text_of};
ghost use Rattle.mz_gen.specs.Made.{four_digits, made_name, first_dependency, has_second, second_text, theorems_line, first_theorem_line, second_theorem, reference, made_text, IsMadeFile, AreMadeFiles, AreMadeNames};

use mz_base::name::Name;
use mz_base::names::Names;
use mz_base::text::Text;
use mz_io::file::File;
use mz_io::file_kind::FileKind;
use mz_io::file_list::FileList;
use mz_io::quiet_shelf::QuietShelf;
use mz_io::shelf::Shelf;
use std::alloc::{AllocError, Global};

/// The digit of the ones.
fn last_digit(n: u32) -> u8
    ensures { result ≡ 48 + n % 10 }
{
    b'0' + (n % 10) as u8
}

/// The bytes of the name of article i.
#[tactic(auto, unfolding(crate::specs::Made::made_name))]
fn made_name_bytes(i: u32) -> [u8; 5]
    ensures { result ≡ made_name i }
{
    let thousands = last_digit(i / 1000);
    let hundreds = last_digit(i / 100);
    let tens = last_digit(i / 10);
    let ones = last_digit(i);
    [b'G', thousands, hundreds, tens, ones]
}

/// The name of article i, below 10,000.
pub fn made_name(i: u32) -> Name
    ensures { text_of result.number ≡ made_name i }
{
    match Name::read(&made_name_bytes(i)) {
        Ok(name) => name,
        Err(_) => unreachable!(),
    }
}

/// The first dependency of article i.
fn first_dependency(i: u32) -> u32
    requires { 0 < i }
    ensures { result ≡ first_dependency i }
{
    (i - 1) / 2
}

/// Whether article i has article i - 3 as another dependency.
fn has_second(i: u32) -> bool
    requires { 0 < i }
    ensures { result ≡ has_second i }
{
    i > 2 && i - 3 != first_dependency(i)
}

/// Adds `, NAME` for the second dependency of article i, where there is one.
fn push_second(text: &mut Text, i: u32) -> Result<(), AllocError>
    requires { 0 < i }
    ensures { OnOk result (text.new ≡ text.old ++ second_text i) }
{
    if has_second(i) {
        text.extend_from_slice(b", ")?;
        text.extend_from_slice(&made_name_bytes(i - 3))
    } else {
        Ok(())
    }
}

/// Adds the line ` theorems DEPENDENCIES;` of article i.
fn push_theorems(text: &mut Text, i: u32) -> Result<(), AllocError>
    requires { 0 < i }
    ensures { OnOk result (text.new ≡ text.old ++ theorems_line i) }
{
    text.extend_from_slice(b" theorems ")?;
    text.extend_from_slice(&made_name_bytes(first_dependency(i)))?;
    push_second(text, i)?;
    text.extend_from_slice(b";\n")
}

/// Adds ` by FIRST:1` of article i.
fn push_reference(text: &mut Text, i: u32) -> Result<(), AllocError>
    requires { 0 < i }
    ensures { OnOk result (text.new ≡ text.old ++ reference i) }
{
    text.extend_from_slice(b" by ")?;
    text.extend_from_slice(&made_name_bytes(first_dependency(i)))?;
    text.extend_from_slice(b":1")
}

/// The text of article i above 0.
fn dependent_text(alloc: Global, i: u32) -> Result<Text, AllocError>
    requires { 0 < i }
    ensures { IfOk result (λ text. text ≡ codes "environ\n" ++ theorems_line i ++ codes "begin\n" ++ first_theorem_line ++ second_theorem ++ reference i ++ codes ";\n") }
{
    let mut text = Text::from_slice(alloc, b"environ\n")?;
    push_theorems(&mut text, i)?;
    text.extend_from_slice(b"begin\n")?;
    text.extend_from_slice(b"theorem for x being object holds x = x;\n")?;
    text.extend_from_slice(b"theorem for x,y being object st x = y holds y = x")?;
    push_reference(&mut text, i)?;
    text.extend_from_slice(b";\n")?;
    Ok(text)
}

/// The text of article 0.
fn first_text(alloc: Global) -> Result<Text, AllocError>
    ensures { IfOk result (λ text. text ≡ codes "environ\nbegin\n" ++ first_theorem_line ++ second_theorem ++ codes ";\n") }
{
    let mut text = Text::from_slice(alloc, b"environ\nbegin\n")?;
    text.extend_from_slice(b"theorem for x being object holds x = x;\n")?;
    text.extend_from_slice(b"theorem for x,y being object st x = y holds y = x")?;
    text.extend_from_slice(b";\n")?;
    Ok(text)
}

/// The text of article i.
pub fn made_text(alloc: Global, i: u32) -> Result<Text, AllocError>
    ensures { IfOk result (λ text. text ≡ made_text i) }
{
    if i == 0 {
        first_text(alloc)
    } else {
        dependent_text(alloc, i)
    }
}

/// The file of article i.
fn made_file(alloc: Global, i: u32) -> Result<File, AllocError>
    ensures { IfOk result (IsMadeFile i) }
{
    let bytes = made_text(alloc, i)?;
    Ok(File {
        kind: FileKind::Article,
        name: made_name(i),
        bytes,
    })
}

/// The names of the articles 0 to n - 1, in the order of their numbers.
pub fn made_names(alloc: Global, n: u32) -> Result<Names, AllocError>
    ensures { IfOk result (AreMadeNames n) }
{
    let mut names = Names::new(alloc);
    for i in 0..n {
        names.push(made_name(i))?;
    }
    Ok(names)
}

fn made_files(alloc: Global, n: u32) -> Result<FileList, AllocError>
    ensures { IfOk result (AreMadeFiles n) }
{
    let mut files = FileList::new(alloc);
    for i in 0..n {
        files.push(made_file(alloc, i)?)?;
    }
    Ok(files)
}

/// A shelf with n made articles.
pub fn generate(alloc: Global, n: u32) -> Result<QuietShelf, AllocError>
    requires { (1 ≤ n) × (n ≤ 512) }
    ensures files { IfOk result (λ shelf. AreMadeFiles n shelf.files) }
    ensures contents { IfOk result (λ shelf. ⟦<QuietShelf as Shelf>⟧.contents shelf ≡ Some shelf.files) }
    ensures no_byte { IfOk result (λ shelf. ⟦<QuietShelf as Shelf>⟧.amount shelf ≡ 0) }
{
    let files = made_files(alloc, n)?;
    Ok(QuietShelf::new(files))
}
