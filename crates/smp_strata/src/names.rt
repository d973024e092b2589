//! Texts numbered in order of first appearance.

ghost use Rattle.std.specs.{Prelude.{◌≡◌, [], length, map, IfOk}, List.{position_or_len}, Str.{bytes_eq}};
ghost use Rattle.smp_strata.specs.{Appearances.{distinct}, Kept.Seen.{with_text}};

use indexmap::IndexSet;
use smp_frac::{NoMemory, Text};
use std::alloc::Global;

/// The distinct ones of some texts, in order of first appearance, and the number that each text has among them.
#[derive(Drop)]
pub(crate) struct Numbered {
    pub names: Vec<Text>,
    pub numbers: Vec<usize>,
}

// The number of a text, which is new or not.
fn number_of<'a>(seen: &mut IndexSet<&'a str>, text: &'a str) -> Result<usize, NoMemory>
    ensures seen { IfOk result (λ _.
        map (λ n. n.now) seen.new.keys
        ≡ with_text (map (λ n. n.now) seen.old.keys) text.entry.now) }
    ensures number { IfOk result (λ number.
        number ≡ position_or_len (bytes_eq text.entry.now) (map (λ n. n.now) seen.old.keys)) }
{
    // Where there is one text alone, as without a column, it is found without a look at the table.
    if let Some(first) = seen.first() {
        if text == *first {
            return Ok(0);
        }
    }
    let (number, _) = seen.insert_full(text)?;
    Ok(number)
}

// Copies of some texts.
fn copies(alloc: Global, texts: &[&str]) -> Result<Vec<Text>, NoMemory>
    ensures { IfOk result (λ list. list.items ≡ map (λ t. t.now) texts.now) }
{
    let mut list = Vec::with_capacity(alloc, texts.len())?;
    for text in texts {
        list.push(Text::from_str(alloc, text)?)?;
    }
    Ok(list)
}

// The number of each text, in order of first appearance, with the distinct texts put into an empty set.
fn numbers_of<'a>(
    alloc: Global,
    seen: &mut IndexSet<&'a str>,
    texts: &[&'a str],
) -> Result<Vec<usize>, NoMemory>
    requires { seen.old.keys ≡ [] }
    ensures seen { IfOk result (λ _.
        map (λ n. n.now) seen.new.keys ≡ distinct (map (λ t. t.now) texts.now)) }
    ensures numbers { IfOk result (λ numbers. numbers.items
        ≡ map (λ t. position_or_len (bytes_eq t.now) (distinct (map (λ r. r.now) texts.now)))
        texts.now) }
{
    let mut numbers = Vec::with_capacity(alloc, texts.len())?;
    for text in texts {
        numbers.push(number_of(seen, text)?)?;
    }
    Ok(numbers)
}

/// The texts numbered in order of first appearance.
pub(crate) fn numbered_texts<'a>(alloc: Global, texts: &[&'a str]) -> Result<Numbered, NoMemory>
    ensures names { IfOk result (λ n. n.names.items ≡ distinct (map (λ t. t.now) texts.now)) }
    ensures numbers { IfOk result (λ n. n.numbers.items
        ≡ map (λ t. position_or_len (bytes_eq t.now) (distinct (map (λ r. r.now) texts.now)))
        texts.now) }
{
    let mut seen = IndexSet::new(alloc);
    let numbers = numbers_of(alloc, &mut seen, texts)?;
    let names = copies(alloc, seen.as_slice())?;
    Ok(Numbered { names, numbers })
}

/// The number that each text has among the distinct ones, in order of first appearance, and how many those are.
#[derive(Drop)]
pub(crate) struct Counted {
    pub count: usize,
    pub numbers: Vec<usize>,
}

/// The texts numbered in order of first appearance, without their names.
pub(crate) fn counted_texts<'a>(alloc: Global, texts: &[&'a str]) -> Result<Counted, NoMemory>
    ensures count { IfOk result (λ n.
        n.count ≡ length (distinct (map (λ t. t.now) texts.now))) }
    ensures numbers { IfOk result (λ n. n.numbers.items
        ≡ map (λ t. position_or_len (bytes_eq t.now) (distinct (map (λ r. r.now) texts.now)))
        texts.now) }
{
    let mut seen = IndexSet::new(alloc);
    let numbers = numbers_of(alloc, &mut seen, texts)?;
    let count = seen.len();
    Ok(Counted { count, numbers })
}
