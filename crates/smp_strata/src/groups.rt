//! Places grouped by the numbers that stand there.

ghost use Rattle.std.specs.Prelude.{◌≡◌, ◌<◌, ◌++◌, ◌∷◌, [], All, IfOk, OnOk, length, map, slice_index_or, slice_set};
ghost use Rattle.std.specs.List.{range_with_len};
ghost use Rattle.smp_strata.specs.Kept.Layouts.{AreGroups};

use smp_frac::NoMemory;
use std::alloc::Global;
use std::marker::Model;
use std::slice;

/// Numbers in a list, seen as that list. A single number takes no memory.
#[derive(Drop)]
pub struct Group {
    single: Option<usize>,
    items: Vec<usize>,
}

impl Model for Group {
    ghost use Rattle.std.specs.Prelude.{List, ℕ};
    ghost use Rattle.smp_strata.specs.Kept.Groups.{numbers_in};

    ghost Value = { List ℕ };

    ghost view = { λ g. numbers_in g.single g.items.items };
}

impl Group {
    fn new(alloc: Global) -> Group
        ensures { result ≡ [] }
    {
        Group {
            single: None,
            items: Vec::new(alloc),
        }
    }

    fn push(&mut self, item: usize) -> Result<(), NoMemory>
        ensures { OnOk result (self.new ≡ self.old ++ item ∷ []) }
    {
        match self.single {
            Some(first) => {
                self.items.clear();
                self.items.push(first)?;
                self.items.push(item)?;
                self.single = None;
            }
            None if self.items.is_empty() => self.single = Some(item),
            None => self.items.push(item)?,
        }
        Ok(())
    }

    /// A copy of numbers.
    pub(crate) fn from_slice(alloc: Global, numbers: &[usize]) -> Result<Group, NoMemory>
        ensures { IfOk result (λ group. group ≡ numbers.now) }
    {
        match numbers {
            [number] => Ok(Group {
                single: Some(*number),
                items: Vec::new(alloc),
            }),
            _ => Ok(Group {
                single: None,
                items: Vec::from_slice(alloc, numbers)?,
            }),
        }
    }

    /// The numbers in their order.
    pub fn as_slice(&self) -> &[usize]
        ensures { result.now ≡ self.now }
    {
        match &self.single {
            Some(number) => slice::from_ref(number),
            None => self.items.as_slice(),
        }
    }
}

/// The places of a list by the numbers that stand there, and where each place is among those with its number.
#[derive(Drop)]
pub(crate) struct Groups {
    pub groups: Vec<Group>,
    pub among: Vec<usize>,
}

fn empty_groups(alloc: Global, count: usize) -> Result<Vec<Group>, NoMemory>
    ensures { IfOk result (λ groups.
        groups.items ≡ map (λ number. []) (range_with_len 0 count)) }
{
    let mut groups = Vec::with_capacity(alloc, count)?;
    for number in 0..count {
        prove!(number < count);
        groups.push(Group::new(alloc))?;
    }
    Ok(groups)
}

// Adds a place to the group of a number, and says where it is in it.
fn add(groups: &mut Vec<Group>, number: usize, place: usize) -> Result<usize, NoMemory>
    requires { number < length groups.old.items }
    ensures groups { OnOk result (groups.new.items
        ≡ slice_set groups.old.items number
        (slice_index_or groups.old.items number [] ++ place ∷ [])) }
    ensures among { IfOk result (λ among.
        among ≡ length (slice_index_or groups.old.items number [])) }
{
    let among = groups[number].as_slice().len();
    groups[number].push(place)?;
    Ok(among)
}

/// The places of a list of numbers below a count, by the numbers that stand there.
pub(crate) fn groups_of(alloc: Global, numbers: &[usize], count: usize) -> Result<Groups, NoMemory>
    requires { All (λ number. number < count) numbers.now }
    ensures { IfOk result (λ g. AreGroups numbers.now count g.groups.items g.among.items) }
{
    let mut groups = empty_groups(alloc, count)?;
    let mut among = Vec::with_capacity(alloc, numbers.len())?;
    for (place, &number) in numbers.iter().enumerate() {
        among.push(add(&mut groups, number, place)?)?;
    }
    Ok(Groups { groups, among })
}
