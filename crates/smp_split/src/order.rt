ghost use Rattle.std.specs.{Prelude.{◌≡◌, ◌+◌, ◌<◌, ◌≤◌, true, length, slice_index, nat_eq, if◌then◌else◌, IfOk}, List.{range_with_len}};
ghost use Rattle.smp_split.specs.Orders.{Placing, IsMirrored, frame_order, undrawn_order, exchanged_order, next_place};

use smp_frac::NoMemory;
use smp_places::numbers_below;
use std::alloc::Global;
use std::marker::Model;

/// The order in which units are taken. It may be drawn, by steps that exchange two units each: the first decides which
/// unit stands at the first place, the next which one stands at the second, and so on.
///
/// An order that is drawn is kept as the place of each unit and the unit at each place, so a step and a look-up take constant
/// time. That of the frame is no list: each unit's place is its own number.
#[derive(Drop)]
pub struct UnitOrder {
    in_frame: bool,
    count: usize,
    places: Vec<usize>,
    units: Vec<usize>,
    left: usize,
}

impl Model for UnitOrder {
    ghost Value = { Placing };

    ghost view = { λ a. record {
      places = if a.in_frame then range_with_len 0 a.count else a.places.items;
      left = a.left;
    } };

    ghost invariant = { λ a. (a.in_frame ≡ true → a.left ≡ 0)
        × (1 ≤ a.left → IsMirrored a.places.items a.units.items a.left) };
}

impl UnitOrder {
    /// So many units as they stand in the frame. No step is left. It takes no memory.
    pub fn in_frame(alloc: Global, units: usize) -> UnitOrder
        ensures { result ≡ frame_order units }
    {
        UnitOrder {
            in_frame: true,
            count: units,
            places: Vec::new(alloc),
            units: Vec::new(alloc),
            left: 0,
        }
    }

    /// So many units whose order is to be drawn, by one step less than there are units.
    pub fn undrawn(alloc: Global, units: usize) -> Result<UnitOrder, NoMemory>
        ensures { IfOk result (λ order. order ≡ undrawn_order units) }
    {
        Ok(UnitOrder {
            in_frame: false,
            count: units,
            places: numbers_below(alloc, units)?,
            units: numbers_below(alloc, units)?,
            left: units.saturating_sub(1),
        })
    }

    /// Whether no step of the order is left.
    pub fn is_drawn(&self) -> bool
        ensures { result ≡ nat_eq self.now.left 0 }
    {
        self.left == 0
    }

    /// The bound of the next step's draw: how many units may come to stand at the next place.
    pub fn bound(&self) -> u128
        ensures { result ≡ self.now.left + 1 }
    {
        self.left as u128 + 1
    }

    /// The place of a unit.
    pub fn place(&self, unit: usize) -> usize
        requires { unit < length self.now.places }
        ensures { result ≡ slice_index self.now.places unit }
    {
        if self.in_frame {
            unit
        } else {
            self.places[unit]
        }
    }

    /// Makes the next step: exchanges the units at the next place and at the place that is `draw` further on. Answers
    /// the two places.
    pub fn exchange(&mut self, draw: u128) -> (usize, usize)
        requires going { 1 ≤ self.old.left }
        requires within { draw < self.old.left + 1 }
        ensures order { self.new ≡
            exchanged_order self.old (next_place self.old) (next_place self.old + draw) }
        ensures places { result ≡ (next_place self.old, next_place self.old + draw) }
    {
        let place = self.places.len() - 1 - self.left;
        let other = place + draw as usize;
        let unit = self.units[place];
        let other_unit = self.units[other];
        self.places[unit] = other;
        self.places[other_unit] = place;
        self.units.swap(place, other);
        self.left -= 1;
        (place, other)
    }
}
