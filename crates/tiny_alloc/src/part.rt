//! The parts that objects have in blocks of tiny objects.

/// An object that stands in the block of another one.
#[derive(Clone, Copy, Debug, PartialEq, Eq)]
pub struct Rider {
    /// The object's number.
    pub object: u32,
    /// The number of the object whose block it is.
    pub lead: u32,
    /// The bytes of the block before the object, up to 15.
    pub offset: u32,
}

/// The part of an object.
#[derive(Clone, Copy, Debug, PartialEq, Eq)]
pub enum Part {
    /// It isn't tiny.
    Other,
    /// It needs a block of its own.
    Lead,
    /// It rides in the block of the object with this number, behind so many bytes.
    Ride(u32, u32),
}
