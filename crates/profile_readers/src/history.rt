//! What a board showed, which contracts alone know. What is there when the program runs is its length.

ghost use Rattle.std.specs.Prelude.{◌≡◌, ◌<◌, ◌++◌, ◌∷◌, [], length, IfSome, IsTrue, IsFalse};
ghost use mathlib.Core.List.{IsPrefix};
ghost use Rattle.profile_readers.specs.Rules.{head_of};

use logbook::{Gain, Offer, Plain, Play, Rule, Seen, Start, Word};
use profile_cycle::Count;
use std::collections::LinkedList;
use std::marker::{Brand, Model, PhantomData};

/// A publish: the counts that it showed. No value of it is made.
pub(crate) type Publish = LinkedList<Count>;

/// What holds of all publishes: the head counts them.
pub struct Counted;

impl Rule<Publish, u64> for Counted {
    ghost use Rattle.std.specs.Prelude.{[]};
    ghost use base.Fml.{ftrue};
    ghost use Rattle.profile_readers.specs.Rules.{IsCounted};

    ghost holds = { λ cells log. IsCounted cells log };

    ghost first = { [] };

    ghost hinted = { λ n log. Unit {0} };

    ghost shows = { λ log. [] };

    ghost keeps = { λ names log. ftrue };

    ghost moves = { λ ask before after answer. Unit {0} };
}

/// Nothing is traded for a publish.
struct Nothing;

impl Gain<Publish, u64> for Nothing {
    ghost use base.Fml.{ftrue};

    ghost after = { λ names about answer. ftrue };
}

/// The step that adds a publish.
struct Adds;

impl Play<Publish, u64> for Adds {
    ghost use Rattle.profile_readers.specs.Rules.{Added};

    ghost then = { Added };
}

impl Plain<Vec<Count>, Publish, u64> for Adds {
    ghost use Rattle.std.specs.Prelude.{None};

    ghost ask = { λ counts. counts.items };

    ghost state = { λ counts. None };
}

/// Which board it is, and how many buckets it shows. Each call of a program picks it.
pub trait Board {
    ghost use Rattle.std.specs.Prelude.{ℕ};
    ghost use Rattle.logbook.specs.Pages.{Book};

    ghost book: { Book };

    ghost buckets: { ℕ };
}

impl Board for Brand {
    ghost book = { record { number = 0; log_name = 0; cells_name = 0 } };

    ghost buckets = { 0 };
}

/// A board on which nothing was shown, before it has its name. Contracts see it as the name that it gets.
#[derive(Drop)]
pub struct Opened {
    head: Word<Publish, u64, Counted>,
    seen: Seen<Publish, u64, Counted>,
}

impl Model for Opened {
    ghost use Rattle.std.specs.Prelude.{◌≡◌, []};
    ghost use Rattle.logbook.specs.Pages.{Book};
    ghost use Rattle.profile_readers.specs.Rules.{head_of};

    ghost Value = { Book };

    ghost view = { λ o. o.seen.book };

    ghost invariant = { λ o. (o.seen.log ≡ []) × (o.head ≡ head_of o.seen.book) };
}

impl Opened {
    /// A new one.
    pub fn new() -> Opened {
        let (seen, mut first, _second) = Seen::open(Start::alone(), 0, 0);
        Opened {
            head: Word::tracked(0, &mut first),
            seen,
        }
    }

    /// The head under the board's name, and the history in which nothing was shown.
    pub(crate) fn named<B: Board>(self) -> (Head<B>, Front<B>)
        requires { self ≡ B.book }
        ensures { result.1 ≡ [] }
    {
        let Opened { head, seen } = self;
        (
            Head {
                word: head,
                of: PhantomData,
            },
            Front {
                number: 0,
                seen,
                of: PhantomData,
            },
        )
    }
}

/// The right to add publishes: the word that counts them.
#[derive(Drop)]
pub(crate) struct Head<B: Board> {
    word: Word<Publish, u64, Counted>,
    of: PhantomData<B>,
    ghost of_board: { word ≡ head_of B.book },
}

/// A beginning of what a board showed. Contracts see it as that list.
#[derive(Drop)]
pub(crate) struct Front<B: Board> {
    number: u32,
    seen: Seen<Publish, u64, Counted>,
    of: PhantomData<B>,
}

impl<B: Board> Model for Front<B> {
    ghost use Rattle.std.specs.Prelude.{◌≡◌, List, length};
    ghost use Rattle.profile_cycle.specs.declared.counts.Count.{Count};

    ghost Value = { List (List Count) };

    ghost view = { λ f. f.seen.log };

    ghost invariant = { λ f. (f.number ≡ length f.seen.log) × (f.seen.book ≡ B.book) };
}

impl<B: Board> Front<B> {
    /// How many publishes it has.
    pub(crate) fn len(&self) -> u32
        ensures { result ≡ length self.now }
    {
        self.number
    }

    /// A copy.
    pub(crate) fn again(&self) -> Front<B>
        ensures { result ≡ self.now }
    {
        Front {
            number: self.number,
            seen: self.seen.again(),
            of: PhantomData,
        }
    }

    /// Whether the other is longer. Then this one begins it, and otherwise the other begins this one.
    pub(crate) fn is_behind(&self, other: &Front<B>) -> bool
        ensures behind { IsTrue result → IsPrefix self.now other.now }
        ensures ahead { IsFalse result → IsPrefix other.now self.now }
    {
        let mut both = self.seen.again();
        both.learn(&other.seen);
        self.number < other.number
    }

    /// The list with one publish more. `None` only where another publish stands there, which no second head could add.
    pub(crate) fn with(&self, head: &Head<B>, counts: &Vec<Count>) -> Option<Front<B>>
        requires room { length self.now < 4294967295 }
        ensures { IfSome result (λ f. f ≡ self.now ++ counts.now.items ∷ []) }
    {
        let mut seen = self.seen.again();
        let mut offer: Offer<Publish, u64, Counted, Nothing> = seen.plain::<
            Nothing,
            Vec<Count>,
            Adds,
        >(counts);
        let mut pen = seen.no_pen();
        let old = u64::from(self.number);
        let found = head
            .word
            .compare_exchange::<Adds, Nothing>(old, old + 1, &mut seen, &mut offer, &mut pen);
        if found != old {
            return None;
        }
        Some(Front {
            number: self.number + 1,
            seen,
            of: PhantomData,
        })
    }
}
