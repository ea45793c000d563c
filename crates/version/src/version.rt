// A version that was read. It stands in a file of its own: a struct with a ghost field imports what its file does, and the views of lib.rt name it.
ghost use Rattle.std.specs.Prelude.{◌≡◌, length};
ghost use Rattle.rules.specs.Version.{version_identifiers_in};

// The numbers, how many prerelease identifiers there are, and the text that they begin; where there are none, it is empty.
#[derive(Clone, Copy)]
pub struct Version<'a> {
    pub major: u64,
    pub minor: u64,
    pub patch: u64,
    pub count: usize,
    pub prerelease: &'a [u8],
    pub ghost counted: { count ≡ length (version_identifiers_in prerelease.now) },
}
