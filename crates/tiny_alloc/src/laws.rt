//! What a sound report says of the bytes of tiny objects.

ghost use Rattle.std.specs.Prelude.{◌≡◌, ◌≢◌, ℕ, ◌+◌, ◌≤◌, List, ◌⊎◌};
ghost use Rattle.page_alloc.specs.Lists.{In};
ghost use Rattle.trace_reader.specs.declared.trace.Trace.{Trace};
ghost use Rattle.cycle_history.specs.declared.Report.{Report};
ghost use Rattle.cycle_history.specs.Objects.{Object};
ghost use Rattle.tiny_alloc.specs.declared.base.Based.{Based};
ghost use Rattle.tiny_alloc.specs.Riders.{part_at};
ghost use Rattle.tiny_alloc.specs.Sound.{IsSoundTiny, Occupies, lead_of, LiesIn};

/// In a sound report the bytes of two tiny objects that live in one cycle don't overlap.
pub fn tiny_objects_are_apart()
    ensures { (t : Trace) (report : Report) (based : Based) (objects : List Object) → IsSoundTiny t report based objects
        → (c : ℕ) (i : ℕ) (j : ℕ) (x : ℕ) (y : ℕ) (s : ℕ) (u : ℕ) → i ≢ j
        → Occupies t report.answers c i x s → Occupies t report.answers c j y u → (x + s ≤ y) ⊎ (y + u ≤ x) }
{}

/// In a sound report the bytes of a tiny object lie in the slot of its lead, which lives in the base in each cycle in which the
/// object lives.
pub fn a_tiny_object_lies_in_its_block()
    ensures { (t : Trace) (report : Report) (based : Based) (objects : List Object) → IsSoundTiny t report based objects
        → (c : ℕ) (i : ℕ) (address : ℕ) (size : ℕ) → Occupies t report.answers c i address size
        → (o : Object) × In o objects × (o.id ≡ lead_of i (part_at t report.answers i)) × LiesIn based c address size o }
{}
