//! The objects that may be marked.

ghost use Rattle.std.specs.Prelude.{◌≡◌, ℕ, ◌<◌, ◌≤◌, true, IfOk, IfSome};
ghost use Rattle.page_alloc.specs.Lists.{In};
ghost use Rattle.size_classes.specs.Classes.{IsLeastClass, pages_of, slot_of};
ghost use Rattle.proc_cache_tests.specs.declared.objects.Object.{Object};
ghost use Rattle.proc_cache_tests.specs.Ready.{AreLive, IsAt};

use fallible_list::NoMemory;
use size_classes::{Kind, class_of, slot_size, span_pages};
use span_state::Marks;
use std::alloc::Global;

/// An object of a small span of one page.
#[derive(Clone, Copy, Debug, PartialEq, Eq)]
pub struct Object {
    /// Its address.
    pub addr: u64,
    /// The bytes of its slot.
    pub slot: u32,
}

// The address at which the region begins.
const BASE: u64 = 0xc000000000;

// The slot of an object of a small size, where its span has one page.
pub(crate) fn slot_on_page(size: u64) -> Option<u32>
    requires some { 1 ≤ size }
    requires small { size ≤ 32768 }
    ensures { IfSome result (λ slot. (class : ℕ) × IsLeastClass size class × (slot ≡ slot_of class) × (pages_of class ≡ 1) × (1 ≤ slot)) }
{
    let Kind::Small(class) = class_of(size) else {
        return None;
    };
    if span_pages(class) != 1 {
        return None;
    }
    Some(slot_size(class))
}

// Whether the object sits at the index in a span of the page.
fn is_at(object: &Object, page: u32, index: u32) -> bool
    ensures { result ≡ true → IsAt page index object.now }
{
    let offset = u64::from(object.slot) * u64::from(index);
    offset < 8192 && object.addr == BASE + 8192 * u64::from(page) + offset
}

// Whether one of the objects does.
fn is_object(objects: &[Object], page: u32, index: u32) -> bool
    ensures { result ≡ true → (o : Object) × In o objects.now × IsAt page index o }
{
    for object in objects {
        if is_at(object, page, index) {
            return true;
        }
    }
    false
}

// Marks the index of the page, where it was marked before or is one of the objects.
fn mark(
    live: &mut Marks,
    before: &Marks,
    objects: &[Object],
    page: u32,
    index: u32,
) -> Result<(), NoMemory>
    requires live { AreLive before.now objects.now live.old }
    ensures live { AreLive before.now objects.now live.new }
{
    if !before.marked(page, index) && !is_object(objects, page, index) {
        return Err(NoMemory);
    }
    live.add(page, index)
}

// Marks all these pages' indices.
pub(crate) fn mark_all(
    alloc: Global,
    before: &Marks,
    objects: &[Object],
    live: &[(u32, u32)],
) -> Result<Marks, NoMemory>
    ensures { IfOk result (λ marks. AreLive before.now objects.now marks) }
{
    let mut marks = Marks::empty(alloc);
    for at in live {
        mark(&mut marks, before, objects, at.0, at.1)?;
    }
    Ok(marks)
}
