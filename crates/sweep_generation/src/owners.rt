//! The owner of each page. Only Take and Give write it, by the worker that has the heap lock.

ghost use Rattle.std.specs.Prelude.{◌≡◌};
ghost use Rattle.sweep_laws.specs.Lists.{put_run};

// The pages of a run have an owner, as far as the region goes.
pub(crate) fn put_owner(owners: &mut [Option<u32>], page: u32, pages: u32, owner: Option<u32>)
    ensures { owners.new ≡ put_run owners.old page pages owner }
{
    for k in 0..pages {
        let at = page as usize + k as usize;
        if at < owners.len() {
            owners[at] = owner;
        }
    }
}
