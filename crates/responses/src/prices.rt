//! Prices of a level, which are found by their objects.

ghost use Rattle.std.specs.Prelude.{◌≡◌, true};
ghost use Rattle.responses.specs.Found.{price_in};
ghost use Rattle.responses.specs.Prices.{Rise};

use crate::price::Price;
use std::alloc::Global;
use std::marker::Model;

/// What it costs a level that something comes to a notification or an endpoint: of those from which its threads take. Their offsets rise.
#[derive(Drop)]
pub(crate) struct Prices {
    list: Vec<Price>,
}

impl Model for Prices {
    ghost use Rattle.std.specs.Prelude.{List};
    ghost use Rattle.responses.specs.Prices.{Rise};
    ghost use Rattle.responses.specs.declared.price.Price.{Price};

    ghost Value = { List Price };

    ghost view = { λ p. p.list.items };

    ghost invariant = { λ p. Rise p.list.items };
}

/// Whether the objects of prices rise.
fn do_rise(prices: &[Price]) -> bool
    ensures { result ≡ true → Rise prices.now }
{
    for place in 1..prices.len() {
        if prices[place].object <= prices[place - 1].object {
            return false;
        }
    }
    true
}

impl Prices {
    /// These prices: none of them where their objects do not rise.
    pub(crate) fn of(alloc: Global, list: Vec<Price>) -> Self {
        if do_rise(list.as_slice()) {
            Prices { list }
        } else {
            Prices {
                list: Vec::new(alloc),
            }
        }
    }

    /// All of them.
    pub(crate) fn all(&self) -> &[Price]
        ensures prices { result.now ≡ self.now }
        ensures rise { Rise self.now }
    {
        self.list.as_slice()
    }

    /// What the notification or endpoint at an offset costs: nothing where nobody of the level takes.
    pub(crate) fn of_object(&self, object: u32) -> u64
        ensures { result ≡ price_in self.now object }
    {
        match self
            .list
            .binary_search_by_key(&object, |price| price.object)
        {
            Ok(place) => self.list[place].price,
            Err(_) => 0,
        }
    }
}
