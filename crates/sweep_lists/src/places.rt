//! Places of lives, of which some are empty, with a table by page beside them.

ghost use Rattle.std.specs.Prelude.{◌≡◌, ◌≤◌, ◌<◌, ℕ, true, false, map, length, OnOk, OnErr, IfSome, option_map, None, Some, if◌then◌else◌, slice_index_or, slice_set, unwrap_or, is_some, vec_len, vec_capacity};
ghost use Rattle.std.specs.List.{All, filter, position};
ghost use Rattle.sweep_laws.specs.ChangesOfLives.{marks_at, mark_life, keep_marked as kept_marked, allocate_index as allocated_too};
ghost use Rattle.sweep_laws.specs.Lists.{rises};
ghost use Rattle.sweep_laws.specs.Reading.{no_life};
ghost use Rattle.sweep_lists.specs.Loops.{marked_place};
ghost use Rattle.sweep_lists.specs.There.{there, place_view, begins, AreApart, PlaceRoom};
ghost use Rattle.sweep_lists.specs.There.{TellsPlaces, told, first_told};

use crate::life::Life;
use fallible_list::NoMemory;
use span_state::Marks;

// The first place whose life begins at a page: one look into the table for a page of the region, a scan for another.
#[inline(always)]
pub(crate) fn first_at(
    starts: &Vec<Option<usize>>,
    places: &Vec<Option<Life>>,
    page: u32,
) -> Option<usize>
    requires { TellsPlaces starts.now.items (map place_view places.now.items) }
    ensures { result ≡ position (begins page) (map place_view places.now.items) }
{
    match starts.get(page as usize) {
        Some(start) => *start,
        None => scan(places, page),
    }
}

// The same without the table.
#[cold]
#[inline(never)]
fn scan(places: &[Option<Life>], page: u32) -> Option<usize>
    ensures { result ≡ position (λ place. begins page (place_view place)) places.now }
{
    places.iter().position(|place| begins_at(place, page))
}

// Whether a life is there that begins at a page.
fn begins_at(place: &Option<Life>, page: u32) -> bool
    ensures { result ≡ begins page (place_view place.now) }
{
    match place {
        Some(life) => life.page == page,
        None => false,
    }
}

// A life that begins at a page comes to the place `place` behind all others. Answers whether two may begin at one
// page then: they may where two might before, and where the table does not tell that no other begins at this one.
pub(crate) fn tell_next(
    starts: &mut Vec<Option<usize>>,
    page: u32,
    place: usize,
    doubled: bool,
) -> bool
    ensures items { starts.new.items ≡ slice_set starts.old.items page (first_told (slice_index_or starts.old.items page None) place) }
    ensures len { vec_len starts.new ≡ vec_len starts.old }
    ensures before { result ≡ false → doubled ≡ false }
    ensures inside { result ≡ false → page < vec_len starts.old }
    ensures alone { result ≡ false → slice_index_or starts.old.items page None ≡ None }
{
    let page = page as usize;
    if page < starts.len() && starts[page].is_none() {
        starts[page] = Some(place);
        doubled
    } else {
        true
    }
}

// The first place whose life begins at a page after another such one left: none, unless two may begin at one page.
pub(crate) fn next_at(places: &Vec<Option<Life>>, page: u32, doubled: bool) -> Option<usize>
    ensures { result ≡ (if doubled then position (begins page) (map place_view places.now.items) else None) }
{
    if doubled { scan(places, page) } else { None }
}

// The table tells where a life begins at a page.
pub(crate) fn tell_start(starts: &mut Vec<Option<usize>>, page: u32, start: Option<usize>)
    ensures items { starts.new.items ≡ slice_set starts.old.items page start }
    ensures len { vec_len starts.new ≡ vec_len starts.old }
{
    if (page as usize) < starts.len() {
        starts[page as usize] = start;
    }
}

// A place becomes empty. Answers the pages of the life that was there.
pub(crate) fn take_pages(place: &mut Option<Life>) -> u32
    ensures empty { place.new ≡ None }
    ensures pages { result ≡ (unwrap_or (place_view place.old) no_life).pages }
{
    match place.take() {
        Some(life) => life.pages,
        None => 0,
    }
}

// What was marked stays allocated in the life of a place.
pub(crate) fn keep_marked_at(place: &mut Option<Life>) -> Result<(), NoMemory>
    ensures ok { OnOk result (place_view place.new ≡ option_map kept_marked (place_view place.old)) }
    ensures err { OnErr result (place.new ≡ place.old) }
    ensures room { PlaceRoom place.old → PlaceRoom place.new }
    ensures full { OnErr result (PlaceRoom place.old → (unwrap_or (place_view place.old) no_life).count < length (unwrap_or (place_view place.old) no_life).kept) }
{
    match place {
        Some(life) => life.keep_marked(),
        None => Ok(()),
    }
}

// An index of the life of a place is allocated.
#[inline(always)]
pub(crate) fn allocate_at(place: &mut Option<Life>, index: u32) -> Result<(), NoMemory>
    ensures ok { OnOk result (place_view place.new ≡ option_map (allocated_too index) (place_view place.old)) }
    ensures err { OnErr result (place.new ≡ place.old) }
    ensures room { PlaceRoom place.old → PlaceRoom place.new }
    ensures full { OnErr result (PlaceRoom place.old → (unwrap_or (place_view place.old) no_life).count ≤ length (unwrap_or (place_view place.old) no_life).allocated) }
{
    match place {
        Some(life) => life.allocate(index),
        None => Ok(()),
    }
}

// There is a place more behind those below `space`: empty places go only where there is none.
pub(crate) fn make_place(
    places: &mut Vec<Option<Life>>,
    starts: &mut Vec<Option<usize>>,
    space: usize,
)
    // the table
    requires tells { TellsPlaces starts.old.items (map place_view places.old.items) }

    // the space
    requires space { length (there (map place_view places.old.items)) < space }

    // the lives
    ensures lives { there (map place_view places.new.items) ≡ there (map place_view places.old.items) }
    ensures apart { AreApart (map place_view places.old.items) → AreApart (map place_view places.new.items) }
    ensures room { All PlaceRoom places.old.items → All PlaceRoom places.new.items }

    // the places, with space for one more
    ensures capacity { vec_capacity places.new ≡ vec_capacity places.old }
    ensures fits { vec_len places.new < space }

    // the table behind it
    ensures tells { TellsPlaces starts.new.items (map place_view places.new.items) }
    ensures reach { vec_len starts.new ≡ vec_len starts.old }
{
    if space <= places.len() {
        close_up(places, starts);
    }
}

// Empty places go, and the table tells where lives begin then.
fn close_up(places: &mut Vec<Option<Life>>, starts: &mut Vec<Option<usize>>)
    // the table
    requires tells { TellsPlaces starts.old.items (map place_view places.old.items) }

    // the lives
    ensures lives { there (map place_view places.new.items) ≡ there (map place_view places.old.items) }
    ensures apart { AreApart (map place_view places.old.items) → AreApart (map place_view places.new.items) }
    ensures room { All PlaceRoom places.old.items → All PlaceRoom places.new.items }

    // the places
    ensures capacity { vec_capacity places.new ≡ vec_capacity places.old }
    ensures fits { vec_len places.new ≡ length (there (map place_view places.old.items)) }

    // the table behind it
    ensures tells { TellsPlaces starts.new.items (map place_view places.new.items) }
    ensures reach { vec_len starts.new ≡ vec_len starts.old }
{
    remove_empty(places);
    tell_places(starts, places);
}

// Empty places go.
fn remove_empty(places: &mut Vec<Option<Life>>)
    ensures places { places.new.items ≡ filter is_some places.old.items }
    ensures capacity { vec_capacity places.new ≡ vec_capacity places.old }
{
    places.retain(|place| place.is_some());
}

// The table tells the first place of a life at each page at which one begins.
fn tell_places(starts: &mut Vec<Option<usize>>, places: &Vec<Option<Life>>)
    ensures tells { (p : ℕ) → p < vec_len starts.old → slice_index_or starts.new.items p None ≡ told 0 (slice_index_or starts.old.items p None) (position (begins p) (map place_view places.now.items)) }
    ensures len { vec_len starts.new ≡ vec_len starts.old }
{
    let mut k = places.len();
    while 0 < k {
        k -= 1;
        tell_place(starts, &places[k], k);
    }
}

// The table tells that the life of a place begins there.
fn tell_place(starts: &mut Vec<Option<usize>>, place: &Option<Life>, k: usize)
    ensures tells { (p : ℕ) → p < vec_len starts.old → slice_index_or starts.new.items p None ≡ (if begins p (place_view place.now) then Some k else slice_index_or starts.old.items p None) }
    ensures len { vec_len starts.new ≡ vec_len starts.old }
{
    if let Some(life) = place {
        let page = life.page as usize;
        if page < starts.len() {
            starts[page] = Some(k);
        }
    }
}

// Each life keeps its marks. It fails only where one has more marks than objects.
pub(crate) fn mark_all(places: &mut [Option<Life>], marks: &[(u32, u32)]) -> Result<(), NoMemory>
    requires { rises marks.now ≡ true }
    ensures ok { OnOk result (map place_view places.new ≡ map (option_map (mark_life marks.now)) (map place_view places.old)) }
    ensures err { OnErr result (map place_view places.new ≡ map place_view places.old) }
    ensures room { All PlaceRoom places.old → All PlaceRoom places.new }
    ensures full { OnErr result (All PlaceRoom places.old → All (λ life. length (marks_at life.page marks.now) ≤ life.count) (there (map place_view places.old)) → ⊥) }
{
    reserve_marks(places, marks)?;
    set_marks(places, marks);
    Ok(())
}

// Each life gets room for its marks. It fails only where one has more marks than objects.
fn reserve_marks(places: &mut [Option<Life>], marks: &[(u32, u32)]) -> Result<(), NoMemory>
    requires { rises marks.now ≡ true }
    ensures view { map place_view places.new ≡ map place_view places.old }
    ensures ok { OnOk result (All (λ place. IfSome place (λ life. length (marks_at life.page marks.now) ≤ life.kept.space)) places.new) }
    ensures room { All PlaceRoom places.old → All PlaceRoom places.new }
    ensures full { OnErr result (All PlaceRoom places.old → All (λ life. length (marks_at life.page marks.now) ≤ life.count) (there (map place_view places.old)) → ⊥) }
{
    let mut hint = 0;
    for k in 0..places.len() {
        hint = reserve_marks_at(&mut places[k], marks, hint)?;
    }
    Ok(())
}

// The life of a place gets room for its marks, which may begin at `hint`. Answers where they end.
fn reserve_marks_at(
    place: &mut Option<Life>,
    marks: &[(u32, u32)],
    hint: usize,
) -> Result<usize, NoMemory>
    requires { rises marks.now ≡ true }
    ensures view { place_view place.new ≡ place_view place.old }
    ensures ok { OnOk result (IfSome place.new (λ life. length (marks_at life.page marks.now) ≤ life.kept.space)) }
    ensures room { PlaceRoom place.old → PlaceRoom place.new }
    ensures full { OnErr result (PlaceRoom place.old → IfSome (place_view place.old) (λ life. length (marks_at life.page marks.now) ≤ life.count) → ⊥) }
{
    match place {
        Some(life) => life.reserve_marks(marks, hint),
        None => Ok(hint),
    }
}

// Each life keeps its marks.
fn set_marks(places: &mut [Option<Life>], marks: &[(u32, u32)])
    requires rising { rises marks.now ≡ true }
    requires room { All (λ place. IfSome place (λ life. length (marks_at life.page marks.now) ≤ life.kept.space)) places.old }
    ensures view { map place_view places.new ≡ map (option_map (mark_life marks.now)) (map place_view places.old) }
    ensures room { All PlaceRoom places.old → All PlaceRoom places.new }
{
    let mut hint = 0;
    for k in 0..places.len() {
        hint = set_marks_at(&mut places[k], marks, hint);
    }
}

// The life of a place keeps its marks, which may begin at `hint`. Answers where they end.
fn set_marks_at(place: &mut Option<Life>, marks: &[(u32, u32)], hint: usize) -> usize
    requires rising { rises marks.now ≡ true }
    requires room { IfSome place.old (λ life. length (marks_at life.page marks.now) ≤ life.kept.space) }
    ensures { place.new ≡ marked_place marks.now 0 place.old }
{
    match place {
        Some(life) => life.set_marks(marks, hint),
        None => hint,
    }
}

// Each life keeps its marks, out of the table of marks. It fails only where one has more marks than objects.
pub(crate) fn mark_all_by(places: &mut [Option<Life>], marks: &Marks) -> Result<(), NoMemory>
    ensures ok { OnOk result (map place_view places.new ≡ map (option_map (mark_life marks.now.pairs)) (map place_view places.old)) }
    ensures err { OnErr result (map place_view places.new ≡ map place_view places.old) }
    ensures room { All PlaceRoom places.old → All PlaceRoom places.new }
    ensures full { OnErr result (All PlaceRoom places.old → All (λ life. length (marks_at life.page marks.now.pairs) ≤ life.count) (there (map place_view places.old)) → ⊥) }
{
    reserve_marked(places, marks)?;
    set_marked(places, marks);
    Ok(())
}

// Each life gets room for its marks. It fails only where one has more marks than objects.
fn reserve_marked(places: &mut [Option<Life>], marks: &Marks) -> Result<(), NoMemory>
    ensures view { map place_view places.new ≡ map place_view places.old }
    ensures ok { OnOk result (All (λ place. IfSome place (λ life. length (marks_at life.page marks.now.pairs) ≤ life.kept.space)) places.new) }
    ensures room { All PlaceRoom places.old → All PlaceRoom places.new }
    ensures full { OnErr result (All PlaceRoom places.old → All (λ life. length (marks_at life.page marks.now.pairs) ≤ life.count) (there (map place_view places.old)) → ⊥) }
{
    for k in 0..places.len() {
        reserve_marked_at(&mut places[k], marks)?;
    }
    Ok(())
}

// The life of a place gets room for its marks.
fn reserve_marked_at(place: &mut Option<Life>, marks: &Marks) -> Result<(), NoMemory>
    ensures view { place_view place.new ≡ place_view place.old }
    ensures ok { OnOk result (IfSome place.new (λ life. length (marks_at life.page marks.now.pairs) ≤ life.kept.space)) }
    ensures room { PlaceRoom place.old → PlaceRoom place.new }
    ensures full { OnErr result (PlaceRoom place.old → IfSome (place_view place.old) (λ life. length (marks_at life.page marks.now.pairs) ≤ life.count) → ⊥) }
{
    match place {
        Some(life) => life.reserve_marked(marks),
        None => Ok(()),
    }
}

// Each life keeps its marks.
fn set_marked(places: &mut [Option<Life>], marks: &Marks)
    requires { All (λ place. IfSome place (λ life. length (marks_at life.page marks.now.pairs) ≤ life.kept.space)) places.old }
    ensures view { map place_view places.new ≡ map (option_map (mark_life marks.now.pairs)) (map place_view places.old) }
    ensures room { All PlaceRoom places.old → All PlaceRoom places.new }
{
    for k in 0..places.len() {
        set_marked_at(&mut places[k], marks);
    }
}

// The life of a place keeps its marks.
fn set_marked_at(place: &mut Option<Life>, marks: &Marks)
    requires { IfSome place.old (λ life. length (marks_at life.page marks.now.pairs) ≤ life.kept.space) }
    ensures { place.new ≡ marked_place marks.now.pairs 0 place.old }
{
    if let Some(life) = place {
        life.set_marked(marks);
    }
}
