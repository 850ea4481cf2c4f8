//! The order of the values and names that are given.
ghost use Rattle.std.specs.Prelude.{◌≡◌, ◌-◌, ◌==◌, [], OnOk, Some, map, option_map, unwrap_or};
ghost use Rattle.std.specs.List.{list_any};
ghost use Rattle.mz_words.specs.Words.{value_of, with_number, names_article, asks_for, IsAsked};
ghost use Rattle.mz_words.specs.Given.{value_within, given_value, with_name, named, order_with, Meets, MeetsNumbers};

use crate::order::Order;
use crate::word_fault::WordFault;
use mz_base::name::Name;
use mz_base::names::Names;
use mz_base::words::are_digits;
use std::alloc::{AllocError, Global};

/// What a digit stands for.
fn digit(byte: u8) -> u32
    ensures { result ≡ byte - 48 }
{
    u32::from(byte.saturating_sub(b'0'))
}

/// The number that one to four digits write; none for other words.
fn value_of(word: &[u8]) -> Option<u32>
    ensures { result ≡ value_of word.now }
{
    if !are_digits(word) {
        return None;
    }
    match word {
        [a] => Some(digit(*a)),
        [a, b] => Some(digit(*a) * 10 + digit(*b)),
        [a, b, c] => Some((digit(*a) * 10 + digit(*b)) * 10 + digit(*c)),
        [a, b, c, d] => Some(((digit(*a) * 10 + digit(*b)) * 10 + digit(*c)) * 10 + digit(*d)),
        _ => None,
    }
}

/// The number from 1 to `most` that the word writes.
fn value_within(most: u32, word: &[u8]) -> Option<u32>
    ensures { result ≡ value_within most word.now }
{
    match value_of(word) {
        Some(n) if n >= 1 && n <= most => Some(n),
        _ => None,
    }
}

/// The value of an option that may be left out.
fn given_value(most: u32, word: Option<&str>) -> Result<Option<u32>, WordFault>
    ensures { Meets (given_value most (option_map (λ w. w.now) word.entry)) result }
{
    let Some(word) = word else {
        return Ok(None);
    };
    match value_within(most, word.as_bytes()) {
        Some(n) => Ok(Some(n)),
        None => Err(WordFault::Usage),
    }
}

/// Whether one of the names has the number.
fn has_name_with(names: &[Name], number: u64) -> bool
    ensures { result ≡ list_any (λ n. n.number == number) names.now }
{
    names.iter().any(|name| name.number == number)
}

fn has_number(names: &Names, number: u64) -> bool
    ensures { result ≡ list_any (λ m. m == number) (map (λ n. n.number) names.now) }
{
    has_name_with(names.as_slice(), number)
}

/// Adds the name at the end, where it isn't there yet.
fn add_name(names: &mut Names, name: Name) -> Result<(), AllocError>
    ensures { OnOk result (map (λ n. n.number) names.new ≡ with_number (map (λ n. n.number) names.old) name.number) }
{
    if has_number(names, name.number()) {
        Ok(())
    } else {
        names.push(name)
    }
}

/// Takes the name of an article.
fn with_name(mut names: Names, word: &[u8]) -> Result<Names, WordFault>
    ensures { MeetsNumbers (with_name (Some (map (λ n. n.number) names)) word.now) result }
{
    let Ok(name) = Name::read(word) else {
        return Err(WordFault::Usage);
    };
    if name.is_built_in() {
        return Err(WordFault::Usage);
    }
    add_name(&mut names, name)?;
    Ok(names)
}

/// The names of the articles, each once, in the order of the words.
fn named(alloc: Global, words: &[&str]) -> Result<Names, WordFault>
    ensures { MeetsNumbers (named (map (λ w. w.now) words.now)) result }
{
    let mut names = Names::new(alloc);
    for word in words {
        match with_name(names, word.as_bytes()) {
            Ok(next) => names = next,
            Err(fault) => return Err(fault),
        }
    }
    Ok(names)
}

/// The names of the articles, of the words that are given for them, if any.
fn given_names(alloc: Global, words: Option<&[&str]>) -> Result<Names, WordFault>
    ensures { MeetsNumbers (named (unwrap_or (option_map (λ s. map (λ w. w.now) s.now) words.entry) [])) result }
{
    match words {
        Some(words) => named(alloc, words),
        None => Ok(Names::new(alloc)),
    }
}

/// Whether there is a name or a number of made articles, not both, and no listing of made ones.
fn asks_for(names: &[Name], generates: bool, list: bool) -> bool
    ensures { result ≡ asks_for (map (λ n. n.number) names.now) generates list }
{
    match names {
        [] => generates && !list,
        [_, ..] => !generates,
    }
}

/// The order of the values of `--workers` and `--generate`, of `--list`, and of the names.
pub fn order_with(
    alloc: Global,
    workers: Option<&str>,
    generate: Option<&str>,
    list: bool,
    names: Option<&[&str]>,
) -> Result<Order, WordFault>
    ensures { IsAsked (order_with (given_value 16 (option_map (λ w. w.now) workers.entry)) (given_value 512 (option_map (λ w. w.now) generate.entry)) list (named (unwrap_or (option_map (λ s. map (λ w. w.now) s.now) names.entry) []))) result }
{
    let workers = given_value(16, workers)?;
    let generate = given_value(512, generate)?;
    let names = given_names(alloc, names)?;
    if !asks_for(names.as_slice(), generate.is_some(), list) {
        return Err(WordFault::Usage);
    }
    Ok(Order {
        workers: workers.unwrap_or(1),
        list,
        generate,
        names,
    })
}
