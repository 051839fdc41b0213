//! The steps of a ring's table, one function a kind.

ghost use Rattle.std.specs.Prelude.{◌≡◌, ℕ, ◌+◌, ◌%◌, ◌^◌, ◌<◌, true, not};
ghost use Rattle.profile_cycle.specs.declared.words.Kind.{Kind};
ghost use Rattle.profile_cycle.specs.Rule.{
  counted,
  Fits,
  has,
  IsAlone,
  IsMoved,
  IsPublication,
  IsPublishing,
  MayCount,
  moves,
  published_sight,
  stands,
};
ghost use Rattle.profile_cycle.specs.Words.{after, before, IsCounting, IsWord, place, toward};

use crate::calls::What;
use crate::sight::{Counts, Enters, Moves, Picked, Publishes, Reads, Sight};
use crate::words::Word;
use atomic_table::Seat;
use std::marker::Brand;

// The call stands among the arguments so that the proof can pick it.
fn enter_as<J: Picked>(counts: &Counts, seat: &mut Seat<(), Sight>, word: Word, _what: &What) -> u64
    // the call
    requires picked { J.what ≡ _what.now }
    requires counts { IsCounting counts.now.key _what.now }

    // the seat
    requires fits { Fits counts.now.table_id counts.now.key seat.old.table_id }
    requires may { MayCount seat.old.me.0 }

    // the word
    requires word { word ≡ toward _what.now seat.old.me.0.view }

    // the seat behind it
    ensures table { seat.new.table_id ≡ seat.old.table_id }
    ensures me { seat.new.me ≡ (counted _what.now result seat.old.me.0, seat.old.me.1) }
{
    counts.fetch_add::<Enters<J>>(seat, word.place(), 1)
}

/// Counts a call in its word, and answers what the word was.
pub(crate) fn enter(counts: &Counts, seat: &mut Seat<(), Sight>, word: Word, what: &What) -> u64
    requires fits { Fits counts.now.table_id counts.now.key seat.old.table_id }
    requires may { MayCount seat.old.me.0 }
    requires counts { IsCounting counts.now.key what.now }
    requires word { word ≡ toward what.now seat.old.me.0.view }
    ensures table { seat.new.table_id ≡ seat.old.table_id }
    ensures me { seat.new.me ≡ (counted what.now result seat.old.me.0, seat.old.me.1) }
{
    enter_as::<Brand>(counts, seat, word, what)
}

/// Reads a word.
pub(crate) fn read(counts: &Counts, seat: &mut Seat<(), Sight>, word: Word) -> u64
    requires fits { Fits counts.now.table_id counts.now.key seat.old.table_id }
    requires alone { IsAlone seat.old.me.0 }
    requires word { IsWord counts.now.key word }
    ensures table { seat.new.table_id ≡ seat.old.table_id }
    ensures me { seat.new.me ≡ seat.old.me }
    ensures value { result ≡ stands word seat.old.me.0 % 2 ^ 64 }
{
    counts.load::<Reads>(seat, word.place())
}

/// Adds to a word what waited.
pub(crate) fn raise(counts: &Counts, seat: &mut Seat<(), Sight>, word: Word, number: u64)
    // the seat
    requires fits { Fits counts.now.table_id counts.now.key seat.old.table_id }
    requires alone { IsAlone seat.old.me.0 }
    requires may { seat.old.me.0.lent ≡ not seat.old.me.0.view.drives }

    // the word, and the number
    requires word { IsWord counts.now.key word }
    requires sum { (stands word seat.old.me.0 + number) % 2 ^ 64 ≡ after word seat.old.me.0.view % 2 ^ 64 }

    // the seat behind it
    ensures table { seat.new.table_id ≡ seat.old.table_id }
    ensures me { seat.new.me ≡ (moves (place word) seat.old.me.0, seat.old.me.1) }
{
    counts.fetch_add::<Moves>(seat, word.place(), number);
}

/// Leaves 0 in a word whose number was moved.
pub(crate) fn clear(counts: &Counts, seat: &mut Seat<(), Sight>, word: Word)
    // the seat
    requires fits { Fits counts.now.table_id counts.now.key seat.old.table_id }
    requires alone { IsAlone seat.old.me.0 }
    requires may { seat.old.me.0.lent ≡ not seat.old.me.0.view.drives }

    // the word
    requires word { IsWord counts.now.key word }
    requires none { after word seat.old.me.0.view ≡ 0 }

    // the seat behind it
    ensures table { seat.new.table_id ≡ seat.old.table_id }
    ensures me { seat.new.me ≡ (moves (place word) seat.old.me.0, seat.old.me.1) }
{
    counts.store::<Moves>(seat, word.place(), 0);
}

fn finish_as<J: Picked>(counts: &Counts, seat: &mut Seat<(), Sight>, _what: &What)
    // the call
    requires picked { J.what ≡ _what.now }
    requires publishes { IsPublication _what.now }

    // the seat
    requires fits { Fits counts.now.table_id counts.now.key seat.old.table_id }
    requires alone { IsAlone seat.old.me.0 }
    requires publishing { IsPublishing seat.old.me.0 }

    // what was noted for the next cycle
    requires moved { (k : Kind) (b : ℕ) → b < counts.now.key → has b seat.old.me.0.due ≡ true → IsMoved seat.old.me.0 k b }

    // the seat behind it
    ensures table { seat.new.table_id ≡ seat.old.table_id }
    ensures me { seat.new.me ≡ (published_sight _what.now seat.old.me.0, seat.old.me.1) }
{
    counts.load::<Publishes<J>>(seat, 0);
}

/// Makes the publishing call, once all that was noted for the next cycle is moved.
pub(crate) fn finish(counts: &Counts, seat: &mut Seat<(), Sight>, what: &What)
    // the call
    requires publishes { IsPublication what.now }

    // the seat
    requires fits { Fits counts.now.table_id counts.now.key seat.old.table_id }
    requires alone { IsAlone seat.old.me.0 }
    requires publishing { IsPublishing seat.old.me.0 }

    // what was noted for the next cycle
    requires moved { (k : Kind) (b : ℕ) → b < counts.now.key → has b seat.old.me.0.due ≡ true → IsMoved seat.old.me.0 k b }

    // the seat behind it
    ensures table { seat.new.table_id ≡ seat.old.table_id }
    ensures me { seat.new.me ≡ (published_sight what.now seat.old.me.0, seat.old.me.1) }
{
    finish_as::<Brand>(counts, seat, what);
}
