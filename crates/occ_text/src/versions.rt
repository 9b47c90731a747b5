//! The versions of texts.

ghost use Rattle.std.specs.Prelude.{◌≡◌};
ghost use Rattle.occ_text.specs.Headers.{version_text};

/// Which forms a text may use. Its first line says it.
#[derive(Clone, Copy, Debug, PartialEq, Eq)]
pub enum Version {
    /// `occ 1`: keys are numbers and texts, and each range has both ends.
    One,
    /// `occ 2`: keys may be of two parts, and a range may lack an end.
    Two,
}

/// The first line of texts of a version.
pub fn version_text(version: Version) -> &'static str
    ensures { result.now ≡ version_text version }
{
    match version {
        Version::One => "occ 1",
        Version::Two => "occ 2",
    }
}
