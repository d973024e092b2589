//! How a case is read.

use smp_frac::{NoMemory, Numbers};
use std::alloc::Global;

/// The units of a case.
#[derive(Drop)]
pub struct Case {
    /// What each size is out of.
    pub denominator: u64,
    /// The size of each unit.
    pub sizes: Vec<u32>,
    /// The balancing values of each unit.
    pub values: Vec<Numbers>,
}

/// The name of the case in a line.
pub fn name_of(line: &str) -> &str {
    match line.split(';').next() {
        Some(name) => name,
        None => line,
    }
}

/// The units of the case in a line; `None` where a part of them isn't written in whole numbers.
pub fn read_case(alloc: Global, line: &str) -> Result<Option<Case>, NoMemory> {
    let mut case = Case {
        denominator: 0,
        sizes: Vec::new(alloc),
        values: Vec::new(alloc),
    };
    let mut is_read = false;
    for (place, part) in line.split(';').enumerate() {
        is_read = match place {
            0 => false,
            1 => case.read_denominator(part),
            _ => is_read && case.read_unit(alloc, part)?,
        };
    }
    Ok(if is_read { Some(case) } else { None })
}

impl Case {
    fn read_denominator(&mut self, text: &str) -> bool {
        match text.parse::<u64>() {
            Ok(denominator) => {
                self.denominator = denominator;
                true
            }
            Err(_) => false,
        }
    }

    fn read_unit(&mut self, alloc: Global, text: &str) -> Result<bool, NoMemory> {
        let mut values = Vec::new(alloc);
        for (place, word) in text.split(' ').enumerate() {
            if place == 0 {
                let Ok(size) = word.parse::<u32>() else {
                    return Ok(false);
                };
                self.sizes.push(size)?;
            } else {
                let Ok(value) = word.parse::<i32>() else {
                    return Ok(false);
                };
                values.push(value)?;
            }
        }
        self.values
            .push(Numbers::from_slice(alloc, values.as_slice())?)?;
        Ok(true)
    }
}
