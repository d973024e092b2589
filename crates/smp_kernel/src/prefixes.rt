//! Tables that are kept from one search to the next.

ghost use Rattle.std.specs.{Prelude.{◌≡◌, ◌-◌, ◌≤◌, IfOk, [], length, take}, List.{All}};
ghost use Rattle.smp_frac.specs.Limits.{number_limit};
ghost use Rattle.smp_kernel.specs.{Vectors.{Within}, RowReduction.{cut}, Searches.{AllEnter, IsSearch}, Searched.{answer, ArePadded}};
ghost use Rattle.smp_kernel.specs.{Answers.{Answers}, Kept.Searched.{IsSearching}};

use crate::searches::{Searched, front, search, search_cut, with_last};
use crate::tables::{Added, Table};
use smp_frac::NoMemory;
use std::alloc::Global;
use std::marker::Model;

/// The tables of the first of some columns of `Q` numbers, of the first two, and so on to all of them: columns that were independent in the
/// search before. It is seen as these columns.
#[derive(Drop)]
pub struct Prefixes<const Q: usize> {
    tables: Vec<Table<Q>>,
}

impl<const Q: usize> Model for Prefixes<Q> {
    ghost use Rattle.std.specs.Prelude.{List, ℤ};
    ghost use Rattle.smp_kernel.specs.Kept.Searched.{AreTables, last_of};

    ghost Value = { List (List ℤ) };

    ghost view = { λ a. last_of a.tables.items };

    ghost invariant = { λ a. AreTables Q a.tables.items };
}

impl<const Q: usize> Prefixes<Q> {
    /// No column.
    fn new(alloc: Global) -> Prefixes<Q>
        ensures { result ≡ [] }
    {
        Prefixes {
            tables: Vec::new(alloc),
        }
    }

    /// How many columns there are.
    fn count(&self) -> usize
        ensures is { result ≡ length self.now }
        ensures enter { AllEnter Q self.now (length self.now) }
    {
        self.tables.len()
    }

    /// How many of the columns stand at the front of others too.
    fn standing(&self, columns: &[[i32; 16]]) -> usize
        requires small { Q ≤ 16 }
        requires within { All (Within (number_limit - 1)) columns.now }
        ensures few { result ≤ length self.now }
        ensures fewer { result ≤ length columns.now }
        ensures same { take result self.now ≡ take result (cut Q columns.now) }
    {
        let most = self.tables.len().min(columns.len());
        for place in 0..most {
            if !self.tables[place].ends_with(&front(&columns[place])) {
                return place;
            }
        }
        most
    }

    /// Takes away the columns that don't stand at the front of others.
    fn keep(&mut self, columns: &[[i32; 16]])
        requires small { Q ≤ 16 }
        requires within { All (Within (number_limit - 1)) columns.now }
        ensures { IsSearching Q columns.now (length self.new) self.new }
    {
        let standing = self.standing(columns);
        self.tables.truncate(standing);
    }

    /// The table of all columns.
    fn table(&self) -> Table<Q>
        requires { Q ≤ 16 }
        ensures { result ≡ self.now }
    {
        if self.tables.is_empty() {
            Table::new()
        } else {
            self.tables[self.tables.len() - 1].copy()
        }
    }

    /// Takes in a column that is independent of those that are there, or tells how it depends on them. Without memory, nothing is done.
    fn add(&mut self, column: &[i64; Q]) -> Result<Added<Q>, NoMemory>
        requires small { Q ≤ 16 }
        requires within { Within (number_limit - 1) column.now }
        ensures { IfOk result (λ added. Answers Q self.old column.now added self.new) }
    {
        let mut table = self.table();
        let added = table.add(column);
        match added {
            Added::Basis => self.tables.push(table)?,
            Added::Circuit { .. } => {}
            Added::Wide => {}
        }
        Ok(added)
    }

    /// Searches columns cut to `Q` rows, from the first one on that isn't there.
    fn search(&mut self, columns: &[[i32; 16]]) -> Searched
        requires small { Q ≤ 16 }
        requires within { All (Within (number_limit - 1)) columns.now }
        ensures is { IsSearch Q (cut Q columns.now) (answer result) }
        ensures padded { ArePadded Q result }
    {
        self.keep(columns);
        for place in self.count()..columns.len() {
            match self.add(&front(&columns[place])) {
                Ok(Added::Basis) => {}
                Ok(Added::Circuit { w, last }) => {
                    return Searched::Found(with_last(&w, last, place));
                }
                Ok(Added::Wide) => return Searched::TooWide,
                Err(_) => return search_cut::<Q>(columns),
            }
        }
        Searched::Independent
    }
}

/// The tables of a search, kept for the next one: those of as many rows as the first search had in force.
#[derive(Drop)]
pub enum Tables {
    Rows1(Prefixes<1>),
    Rows2(Prefixes<2>),
    Rows3(Prefixes<3>),
    Rows4(Prefixes<4>),
    Rows5(Prefixes<5>),
    Rows6(Prefixes<6>),
    Rows7(Prefixes<7>),
    Rows8(Prefixes<8>),
    Rows9(Prefixes<9>),
    Rows10(Prefixes<10>),
    Rows11(Prefixes<11>),
    Rows12(Prefixes<12>),
    Rows13(Prefixes<13>),
    Rows14(Prefixes<14>),
    Rows15(Prefixes<15>),
    Rows16(Prefixes<16>),
    /// Nothing is kept.
    Nothing,
}

// One arm for each number of rows.
macro_rules! of_rows {
    ($rows:expr, $alloc:expr; $($name:ident = $q:literal),*) => {
        match $rows {
            $($q => Tables::$name(Prefixes::new($alloc)),)*
            _ => Tables::Nothing,
        }
    };
}

// The same, and without the tables where the number of rows is another.
macro_rules! search_by {
    ($tables:expr, $columns:expr, $rows:expr; $($name:ident = $q:literal),*) => {
        match $tables {
            $(Tables::$name(prefixes) => {
                if $rows == $q {
                    prefixes.search($columns)
                } else {
                    search($columns, $rows)
                }
            })*
            Tables::Nothing => search($columns, $rows),
        }
    };
}

// Whether the number of rows is that of the variant.
macro_rules! are_for {
    ($tables:expr, $rows:expr; $($name:ident = $q:literal),*) => {
        match $tables {
            $(Tables::$name(_) => $rows == $q,)*
            Tables::Nothing => true,
        }
    };
}

impl Tables {
    /// No table yet, for searches with so many rows in force.
    pub fn new(alloc: Global, rows: usize) -> Tables {
        of_rows!(
            rows, alloc;
            Rows1 = 1, Rows2 = 2, Rows3 = 3, Rows4 = 4, Rows5 = 5, Rows6 = 6, Rows7 = 7,
            Rows8 = 8, Rows9 = 9, Rows10 = 10, Rows11 = 11, Rows12 = 12, Rows13 = 13,
            Rows14 = 14, Rows15 = 15, Rows16 = 16
        )
    }

    /// Searches columns as [`search`] does. Where as many rows are in force as these tables are for, columns at the front that were there
    /// in the search before aren't eliminated again: their tables are kept, one for each of them, as long as there is memory. With another
    /// number of rows all are given back.
    pub fn search(&mut self, columns: &[[i32; 16]], rows: usize) -> Searched
        requires small { rows ≤ 16 }
        requires within { All (Within (number_limit - 1)) columns.now }
        ensures is { IsSearch rows (cut rows columns.now) (answer result) }
        ensures padded { ArePadded rows result }
    {
        if !self.is_for(rows) {
            *self = Tables::Nothing;
        }
        self.search_rows(columns, rows)
    }

    /// Whether they are for so many rows.
    fn is_for(&self, rows: usize) -> bool {
        are_for!(
            self, rows;
            Rows1 = 1, Rows2 = 2, Rows3 = 3, Rows4 = 4, Rows5 = 5, Rows6 = 6, Rows7 = 7,
            Rows8 = 8, Rows9 = 9, Rows10 = 10, Rows11 = 11, Rows12 = 12, Rows13 = 13,
            Rows14 = 14, Rows15 = 15, Rows16 = 16
        )
    }

    /// The search, whichever number of rows the tables are for.
    fn search_rows(&mut self, columns: &[[i32; 16]], rows: usize) -> Searched
        requires small { rows ≤ 16 }
        requires within { All (Within (number_limit - 1)) columns.now }
        ensures is { IsSearch rows (cut rows columns.now) (answer result) }
        ensures padded { ArePadded rows result }
    {
        search_by!(
            self, columns, rows;
            Rows1 = 1, Rows2 = 2, Rows3 = 3, Rows4 = 4, Rows5 = 5, Rows6 = 6, Rows7 = 7,
            Rows8 = 8, Rows9 = 9, Rows10 = 10, Rows11 = 11, Rows12 = 12, Rows13 = 13,
            Rows14 = 14, Rows15 = 15, Rows16 = 16
        )
    }
}
