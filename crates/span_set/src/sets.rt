ghost use Rattle.std.specs.Prelude.{◌≡◌, ◌<◌, false, true};
ghost use Rattle.sweep_laws.specs.Reading.{is_swept_set};
ghost use Rattle.span_set.specs.Sets.{swept_of, unswept_of};

/// The partial or the full sets of a span class, from 0 to 135. Of its two parts one is the swept one, the other the unswept one,
/// and each mark end turns them.
#[derive(Clone, Copy, Debug, PartialEq, Eq)]
pub struct SetId {
    /// The span class.
    pub class: u8,
    /// Whether it is for spans without a free index.
    pub full: bool,
}

/// An index of a set that a worker claimed for a page, and has not filled.
#[derive(Clone, Copy, Debug, PartialEq, Eq)]
pub struct Claim {
    /// The number of the set.
    pub set: u32,
    /// The index of the cell.
    pub index: u32,
    /// The span's first page.
    pub page: u32,
}

/// The number of the swept part at a generation.
pub fn swept_number(set: SetId, generation: u64) -> u32
    ensures number { result ≡ swept_of generation set }
    ensures part { is_swept_set generation result ≡ true }
    ensures low { set.class < 136 → result < 544 }
{
    4 * u32::from(set.class) + 2 * u32::from(set.full) + (generation / 2 % 2) as u32
}

/// The number of the unswept part at a generation.
pub fn unswept_number(set: SetId, generation: u64) -> u32
    ensures number { result ≡ unswept_of generation set }
    ensures part { is_swept_set generation result ≡ false }
    ensures low { set.class < 136 → result < 544 }
{
    4 * u32::from(set.class) + 2 * u32::from(set.full) + ((generation / 2 + 1) % 2) as u32
}
