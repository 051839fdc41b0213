//! Searches that needs ask for. They read, and write nothing.

ghost use Rattle.std.specs.Prelude.{◌≡◌};
ghost use Rattle.std.specs.List.{position};
ghost use Rattle.sweep_laws.specs.Lists.{has, least_of};
ghost use Rattle.sweep_laws.specs.Reading.{listed};
ghost use Rattle.sweep_lists.specs.Views.{hand_view};

use sweep_laws::Kind;
use sweep_lists::CoreHand;

// The first hand whose list of that kind has a page.
pub(crate) fn first_lister(hands: &[CoreHand], kind: Kind, page: u32) -> Option<usize>
    ensures { result ≡ position (λ hand. has page (listed kind (hand_view hand))) hands.now }
{
    hands.iter().position(|hand| hand.list(kind).has(page))
}

// The least of some numbers.
pub(crate) fn least(items: &[u32]) -> Option<u32>
    ensures { result ≡ least_of items.now }
{
    let (first, rest) = items.split_first()?;
    Some(rest.iter().fold(*first, |a, &x| if x < a { x } else { a }))
}
