//! The beginning of each compiled file, and the two layouts.
ghost use Rattle.std.specs.Prelude.{◌≡◌};
ghost use Rattle.goal_binary.specs.Layouts.{version_of, layout_of};

/// The first bytes of each compiled file.
pub const MAGIC: [u8; 8] = [0x89, 0x47, 0x4F, 0x41, 0x4C, 0x0D, 0x0A, 0x1A];

/// How a file lays out its numbers.
#[derive(Clone, Copy)]
pub enum Layout {
    /// Version 1: a number has all bytes of its field.
    Fixed,
    /// Version 2: a number has only the bytes that it needs.
    Packed,
}

/// Returns the layout of a version, if there is one.
pub fn layout_of(version: u32) -> Option<Layout>
    ensures { result ≡ layout_of version }
{
    match version {
        1 => Some(Layout::Fixed),
        2 => Some(Layout::Packed),
        _ => None,
    }
}

impl Layout {
    /// Returns the version of the layout.
    pub fn version(self) -> u32
        ensures { result ≡ version_of self }
    {
        match self {
            Layout::Fixed => 1,
            Layout::Packed => 2,
        }
    }
}
