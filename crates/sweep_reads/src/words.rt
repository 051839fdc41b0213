//! What a generation word says of its span (`mheap.go`, `mspan.sweepgen`).

ghost use Rattle.std.specs.Prelude.{◌≡◌, ◌≤◌, ◌^◌, ◌+◌, ◌==◌};
ghost use Rattle.sweep_laws.specs.Roles.{role_of};

use sweep_laws::Role;

/// The role of a word at a generation from 4 to 2^63.
pub fn role(word: u64, generation: u64) -> Role
    requires low { 4 ≤ generation }
    requires high { generation ≤ 2 ^ 63 }
    ensures { result ≡ role_of word generation }
{
    if word == 0 {
        Role::Nothing
    } else if word == generation - 2 {
        Role::Unswept
    } else if word == generation - 1 {
        Role::Sweeping
    } else if word == generation {
        Role::Swept
    } else if word == generation + 1 {
        Role::StaleCached
    } else if word == generation + 3 {
        Role::Cached
    } else {
        Role::Foreign
    }
}

/// Whether a word is that of a span that waits for its sweep at any generation: a sweep may begin with such a span, and with no
/// other.
pub fn waits(word: u64, generation: u64) -> bool
    ensures { result ≡ (word + 2 == generation) }
{
    word.checked_add(2) == Some(generation)
}
