//! Whether a list is in a report's order.

ghost use Rattle.std.specs.Prelude.{◌≡◌, true};
ghost use Rattle.page_alloc.specs.Lists.{AllApart, In};

use report_text::Ordered;

/// Whether each item comes before all that follow it.
pub(crate) fn rises<X: Ordered>(items: &[X]) -> bool
    ensures { result ≡ true → AllApart X.Before items.now }
{
    match items.split_first() {
        Some((first, rest)) => is_before_all(first, rest) && rises(rest),
        None => true,
    }
}

// Whether the item comes before each of the others.
fn is_before_all<X: Ordered>(item: &X, others: &[X]) -> bool
    ensures { result ≡ true → (other : X) → In other others.now → X.Before item.now other }
{
    match others.split_first() {
        Some((other, rest)) => item.is_before(other) && is_before_all(item, rest),
        None => true,
    }
}
