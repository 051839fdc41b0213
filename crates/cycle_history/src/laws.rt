//! Laws of places, of traces that sample nothing, and of journals with and without page caches.

ghost use Rattle.std.specs.Prelude.{◌≡◌, ◌<◌, ◌↔◌, ℕ, Bool, List, []};
ghost use Rattle.page_bitmap.specs.declared.line.Line.{Line as Entry};
ghost use Rattle.page_alloc.specs.Lists.{In};
ghost use Rattle.page_alloc.specs.Lives.{Life, all_lives};
ghost use Rattle.trace_reader.specs.declared.trace.Trace.{Trace};
ghost use Rattle.cycle_history.specs.declared.Report.{Report};
ghost use Rattle.cycle_history.specs.declared.Answer.TheVariants.{Placed};
ghost use Rattle.cycle_history.specs.Needs.{IsNeed};
ghost use Rattle.cycle_history.specs.Objects.{Object, Sits};
ghost use Rattle.cycle_history.specs.Places.{IsPlace};
ghost use Rattle.cycle_history.specs.Sound.{HasJournal, HasProfileIn, past_in};
ghost use Rattle.cycle_history.specs.Making.{ArePlain, HasPlainJournal, IsMadeBy};

/// A size and an address determine a page and an index.
pub fn an_address_has_one_place()
    ensures { (size : ℕ) (address : ℕ) (p : ℕ) (q : ℕ) (j : ℕ) (k : ℕ) → IsPlace size address p j → IsPlace size address q k → (p ≡ q) × (j ≡ k) }
{}

/// An object sits at its place in each life in which it sits.
pub fn an_object_sits_at_its_place()
    ensures { (size : ℕ) (scan : Bool) (address : ℕ) (o : Object) (life : Life) (k : ℕ) (page : ℕ) (j : ℕ)
        → IsNeed size scan o.need → o.answer ≡ Placed address → Sits o life k → IsPlace size address page j → (life.page ≡ page) × (k ≡ j) }
{}

/// At rate 0 nothing is sampled: an empty profile is right, in both forms.
pub fn rate_0_has_an_empty_profile()
    ensures { (each : Bool) (t : Trace) (report : Report) (objects : List Object) → t.header.rate ≡ 0 → report.profile ≡ [] → HasProfileIn each t report objects }
{}

/// A journal without page caches that pages can have meets rule 2 in each trace of its region and goal; and where all lines of a
/// journal that meets rule 2 are Takes, Misses, Gives and Scavs, it is such a journal.
pub fn a_plain_journal_meets_rule_2()
    ensures { (t : Trace) (report : Report) → (HasPlainJournal t report ↔ (HasJournal t report × ArePlain (past_in report))) }
{}

/// In a trace of version 1 rule 2 knows no page caches.
pub fn version_1_has_no_page_caches()
    ensures { (t : Trace) (report : Report) → t.header.version < 2 → (HasJournal t report ↔ HasPlainJournal t report) }
{}

/// A life is one of a journal's exactly where the journal has its making line: a Take or a Cut with its pages, its span class and
/// its cycle, with its number.
pub fn a_life_has_one_making_line()
    ensures { (past : List Entry) (life : Life) → (In life (all_lives past) ↔ IsMadeBy past life) }
{}
