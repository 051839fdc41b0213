//! The needs of a mark end, in their order. They read, and write nothing.

ghost use Rattle.std.specs.Prelude.{◌≡◌, ◌==◌, ◌&&◌, ◌<◌, ◌+◌, ◌*◌, ◌^◌, OnOk, true, not, length, map, option_map, option_copied, [], ◌∷◌};
ghost use Rattle.std.specs.List.{find, list_all, position, prefix_len};
ghost use Rattle.std.specs.Option.{is_some};
ghost use Rattle.sweep_laws.specs.Lists.{has, rises};
ghost use Rattle.sweep_laws.specs.Reading.{allocated_at, is_settled, is_swept_set};
ghost use Rattle.sweep_laws.specs.NeedsOfMarkEnd.{busy_hand, hands_are_idle, first_claim, no_claims, claim_index as claimed_at, is_idle, unsettled_word, words_are_settled, first_unpopped, sets_are_popped, wrong_mark, marks_are_allocated};
ghost use Rattle.sweep_laws.specs.Needs.{next_needs};
ghost use Rattle.sweep_laws.specs.Tries.{Tried};
ghost use Rattle.sweep_lists.specs.Views.{hand_view, set_view};

use crate::state::Core;
use crate::tries::{demand, narrow};
use sweep_laws::{Found, StepFault};
use sweep_lists::{CoreHand, CoreSet, Indices};

// Mark ends are made below this generation.
const LAST_GENERATION: u64 = 1 << 63;

// A pair as one number, with the first part above the second.
fn packed(pair: (u32, u32)) -> u64
    ensures number { result ≡ 2 ^ 32 * pair.0 + pair.1 }
    ensures second { pair.1 < 2 ^ 32 }
{
    (1 << 32) * u64::from(pair.0) + u64::from(pair.1)
}

// Whether pairs strictly rise. Of the pair before, the packed number is kept, so that each pair is packed once, and those that
// rise are counted, which takes no branch.
fn is_rising(marks: &[(u32, u32)]) -> bool
    ensures { result ≡ rises marks.now }
{
    let Some((first, rest)) = marks.split_first() else {
        return true;
    };
    let mut last = packed(*first);
    let mut risen = 0;
    for mark in rest {
        let number = packed(*mark);
        risen += usize::from(last < number);
        last = number;
    }
    risen == rest.len()
}

// Whether the part of a set is swept in a generation.
pub(crate) fn is_swept(generation: u64, number: u64) -> bool
    ensures { result ≡ is_swept_set generation number }
{
    number % 2 == generation / 2 % 2
}

// The first hand that sweeps, holds or has popped a page.
fn first_busy(hands: &[CoreHand]) -> Option<usize>
    ensures { result ≡ position (λ hand. not (is_idle (hand_view hand))) hands.now }
{
    hands.iter().position(|hand| !hand.is_idle())
}

// The first hand with a claim.
fn find_claim(hands: &[CoreHand]) -> Option<&CoreHand>
    ensures { option_copied result ≡ find (λ hand. is_some (hand_view hand).claimed) hands.now }
{
    hands.iter().find(|hand| hand.claimed.is_some())
}

// The index that a hand claimed.
fn claim_index(hand: &CoreHand) -> Option<u32>
    ensures { result ≡ claimed_at (hand_view hand.now) }
{
    match hand.claimed {
        Some(claim) => Some(claim.index),
        None => None,
    }
}

// Whether eight words are all 0.
fn are_zero(eight: &[u64]) -> bool
    requires { length eight.now ≡ 8 }
    ensures { result ≡ list_all (λ word. word == 0) eight.now }
{
    let bits = eight[0]
        | eight[1]
        | eight[2]
        | eight[3]
        | eight[4]
        | eight[5]
        | eight[6]
        | eight[7];
    bits == 0
}

// The first of some words that is not settled, looked for word by word.
fn search_unsettled(words: &[u64], generation: u64) -> Option<u64>
    requires { generation + 3 < 2 ^ 64 }
    ensures { result ≡ find (λ word. not (is_settled generation word)) words.now }
{
    let cached = generation + 3;
    words.iter().copied().find(|&word| !(word == 0 || word == generation || word == cached))
}

// The first of eight words that is not settled. Nearly all words are 0, so eight that all are take one comparison.
fn find_in_eight(eight: &[u64], generation: u64) -> Option<u64>
    requires low { generation + 3 < 2 ^ 64 }
    requires eight { length eight.now ≡ 8 }
    ensures { result ≡ find (λ word. not (is_settled generation word)) eight.now }
{
    if are_zero(eight) {
        None
    } else {
        search_unsettled(eight, generation)
    }
}

// The first word that is not settled.
fn find_unsettled(words: &[u64], generation: u64) -> Option<u64>
    requires { generation + 3 < 2 ^ 64 }
    ensures { result ≡ find (λ word. not (is_settled generation word)) words.now }
{
    let whole = words.len() / 8;
    for k in 0..whole {
        let found = find_in_eight(&words[8 * k..8 * k + 8], generation);
        if found.is_some() {
            return found;
        }
    }
    search_unsettled(&words[8 * whole..], generation)
}

// The first unswept set with head and tail apart.
fn find_unpopped(sets: &[CoreSet], generation: u64) -> Option<&CoreSet>
    ensures { option_map (λ set. set_view set.now) result ≡ first_unpopped generation 0 (map set_view sets.now) }
{
    for (number, set) in sets.iter().enumerate() {
        if !is_swept(generation, number as u64) && set.head != set.tail {
            return Some(set);
        }
    }
    None
}

// How many marks at the front are of a page and name one of its indices. It stays a function of its own, so that its loop counts
// nothing but the marks.
#[inline(never)]
fn count_named(allocated: &Indices, page: u32, marks: &[(u32, u32)]) -> usize
    ensures { result ≡ prefix_len (λ mark. mark.0 == page && has mark.1 allocated.now.items) marks.now }
{
    for i in 0..marks.len() {
        let mark = &marks[i];
        if mark.0 != page || !allocated.has(mark.1) {
            return i;
        }
    }
    marks.len()
}

impl Core {
    fn busy_hand(&self) -> Option<u32>
        ensures { result ≡ busy_hand self.now }
    {
        narrow(first_busy(&self.hands))
    }

    fn try_idle(&self) -> Result<(), StepFault>
        ensures { Tried (hands_are_idle self.now ∷ []) result }
    {
        let busy = self.busy_hand();
        demand(busy.is_none(), Found::Holder(busy))
    }

    fn first_claim(&self) -> Option<&CoreHand>
        ensures { option_map (λ hand. hand_view hand.now) result ≡ first_claim self.now }
    {
        find_claim(&self.hands)
    }

    fn try_no_claims(&self) -> Result<(), StepFault>
        ensures { Tried (no_claims self.now ∷ []) result }
    {
        match self.first_claim() {
            Some(hand) => demand(false, Found::Index(claim_index(hand))),
            None => Ok(()),
        }
    }

    // The first word that is not settled. Those beyond the used pages are 0, so they are not looked at.
    fn unsettled_word(&self) -> Option<u64>
        ensures { result ≡ unsettled_word self.now }
    {
        let used = self.words.end();
        find_unsettled(&self.words.as_slice()[..used], self.generation)
    }

    fn try_settled(&self) -> Result<(), StepFault>
        ensures { Tried (words_are_settled self.now ∷ []) result }
    {
        match self.unsettled_word() {
            Some(word) => demand(false, Found::Word(word)),
            None => Ok(()),
        }
    }

    fn try_popped(&self) -> Result<(), StepFault>
        ensures { Tried (sets_are_popped self.now ∷ []) result }
    {
        if self.all_popped() {
            return Ok(());
        }
        match find_unpopped(&self.sets, self.generation) {
            Some(set) => demand(false, Found::HeadTail(set.head, set.tail)),
            None => Ok(()),
        }
    }

    // How many marks at the front are of a page and name allocated indices of its life.
    fn count_allocated(&self, page: u32, marks: &[(u32, u32)]) -> usize
        ensures { result ≡ prefix_len (λ mark. mark.0 == page && has mark.1 (allocated_at self.now page)) marks.now }
    {
        match self.life(page) {
            Some(life) => count_named(&life.allocated, page, marks),
            None => 0,
        }
    }

    // The index of the first mark that names no allocated one. The marks of one page stand together, so its life is looked up
    // once, and those that name allocated ones are passed at once.
    fn wrong_mark(&self, marks: &[(u32, u32)]) -> Option<u32>
        ensures { result ≡ wrong_mark self.now marks.now }
    {
        let mut rest = marks;
        while let Some((mark, _)) = rest.split_first() {
            let count = self.count_allocated(mark.0, rest);
            if count == 0 {
                return Some(mark.1);
            }
            let (_, after) = rest.split_at(count);
            rest = after;
        }
        None
    }

    fn try_marks(&self, marks: &[(u32, u32)]) -> Result<(), StepFault>
        ensures { Tried (marks_are_allocated self.now marks.now ∷ []) result }
    {
        match self.wrong_mark(marks) {
            Some(index) => demand(false, Found::Index(Some(index))),
            None => Ok(()),
        }
    }

    pub(crate) fn try_next(&self, marks: &[(u32, u32)]) -> Result<(), StepFault>
        ensures low { OnOk result (self.now.generation < 2 ^ 63) }
        ensures rising { OnOk result (rises marks.now ≡ true) }
        ensures tried { Tried (next_needs self.now marks.now) result }
    {
        demand(is_rising(marks), Found::Range)?;
        demand(self.lock.is_none(), Found::Holder(self.lock))?;
        demand(
            self.generation < LAST_GENERATION,
            Found::Word(self.generation),
        )?;
        self.try_idle()?;
        self.try_nothing_pulled()?;
        self.try_no_claims()?;
        self.try_settled()?;
        self.try_popped()?;
        self.try_marks(marks)
    }
}
