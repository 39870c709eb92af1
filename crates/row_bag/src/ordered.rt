// Rows in an order, where a bag has them.
ghost use Rattle.std.specs.Prelude.{◌≡◌, ◌<◌, ℕ, All, Some, get_or, length, map, slice_get};
ghost use Rattle.row_bag.specs.Places.{rows_at};
ghost use Rattle.row_bag.specs.RowRefs.{lent};

use crate::bag::Bag;
use crate::row::RowRef;
use std::alloc::Global;
use std::marker::Model;

/// The order in which the rows of a bag are taken.
#[derive(Drop)]
enum Order {
    /// Each row at its own place.
    AsTheyStand,
    /// The rows at these places of the bag.
    Places(Vec<usize>),
}

/// Rows in an order, which stay where a bag has them. Contracts see it as the list of the rows in this
/// order.
#[derive(Drop)]
pub struct OrderedBag {
    bag: Bag,
    order: Order,
}

impl Model for OrderedBag {
    ghost use Rattle.std.specs.Prelude.{List};
    ghost use Rattle.row_bag.specs.Places.{AreWithin, taken_in};
    ghost use Rattle.row_bag.specs.declared.row.Row.{Row};
    ghost use Rattle.sql_value.specs.declared.cell.Cell.{Cell};

    ghost Value = { List (Row (List Cell)) };

    ghost view = { λ o. taken_in o.order o.bag };

    ghost invariant = { λ o. AreWithin o.order o.bag };
}

// The places that an order has at these places.
fn through(own: &[usize], places: Vec<usize>) -> Vec<usize>
    requires { All (λ p. p < length own.now) places.items }
    ensures { result.items ≡ map (λ p. get_or own.now p 0) places.items }
{
    let mut places = places;
    for i in 0..places.len() {
        places[i] = own[places[i]];
    }
    places
}

impl OrderedBag {
    /// The rows of a bag, as they stand.
    pub fn new(bag: Bag) -> OrderedBag
        ensures { result ≡ bag }
    {
        OrderedBag {
            bag,
            order: Order::AsTheyStand,
        }
    }

    /// The allocator of the rows.
    pub(crate) fn allocator(&self) -> Global {
        self.bag.allocator()
    }

    /// How many rows there are.
    pub fn len(&self) -> usize
        ensures { result ≡ length self.now }
    {
        match &self.order {
            Order::AsTheyStand => self.bag.len(),
            Order::Places(places) => places.len(),
        }
    }

    /// The row at a place.
    pub fn at(&self, place: usize) -> RowRef<'_>
        requires { place < length self.now }
        ensures { slice_get self.now place ≡ Some (lent result) }
    {
        match &self.order {
            Order::AsTheyStand => self.bag.at(place),
            Order::Places(places) => self.bag.at(places[place]),
        }
    }

    /// The rows at these places, in their order. No row moves.
    pub(crate) fn arranged(self, places: Vec<usize>) -> OrderedBag
        requires { All (λ p. p < length self) places.items }
        ensures { result ≡ rows_at self places.items }
    {
        let OrderedBag { bag, order } = self;
        match order {
            Order::AsTheyStand => OrderedBag {
                bag,
                order: Order::Places(places),
            },
            Order::Places(own) => OrderedBag {
                bag,
                order: Order::Places(through(&own, places)),
            },
        }
    }
}
