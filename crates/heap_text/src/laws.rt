//! Laws of heap profiles and their texts.

ghost use Rattle.heap_text.specs.Laws.{IsOfOneProfile, IsOneOfBoth};

/// A text is of at most one heap profile.
pub fn a_heap_text_is_of_one_profile()
    ensures { IsOfOneProfile }
{}

/// A trace and its answers have at most one heap profile, where there are objects with these answers at all.
pub fn a_trace_and_its_answers_have_one_heap_text()
    ensures { IsOneOfBoth }
{}
