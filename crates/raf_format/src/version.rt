//! The versions of the layout.
ghost use Rattle.std.specs.Prelude.{◌≡◌, IfSome, IsNone};
ghost use Rattle.raf_format.specs.Cipher.{IsTagLen};
ghost use Rattle.raf_format.specs.Version.{version_number, IsVersion, tag_len_of};

/// A version of the layout.
#[derive(Clone, Copy, Debug, PartialEq, Eq)]
pub enum Version {
    /// Version 1: the tags of records have 16 bytes.
    V1,
    /// Version 2: they have 32 bytes.
    V2,
}

impl Version {
    /// The version of this number in a header, or None exactly where no version has it.
    pub fn from_u8(v: u8) -> Option<Version>
        ensures found { IfSome result (λ version. version_number version ≡ v) }
        ensures none { IsNone result → IsVersion v → ⊥ }
    {
        match v {
            1 => Some(Version::V1),
            2 => Some(Version::V2),
            _ => None,
        }
    }

    /// Its number in a header.
    pub fn number(self) -> u8
        ensures is { result ≡ version_number self }
        ensures version { IsVersion result }
    {
        match self {
            Version::V1 => 1,
            Version::V2 => 2,
        }
    }
}

/// How many bytes the tag of a record has: 16 in version 1, 32 in version 2.
pub fn tag_len(version: Version) -> usize
    ensures is { result ≡ tag_len_of (version_number version) }
    ensures tag { IsTagLen result }
{
    match version {
        Version::V1 => 16,
        Version::V2 => 32,
    }
}
