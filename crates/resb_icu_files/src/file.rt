//! Files that stand beside a text, by their names.
//! How they are found on a disk is not said here.
ghost use Rattle.std.specs.Prelude.{◌≡◌, option_map};
ghost use Rattle.std.specs.Option.{option_copied};
ghost use Rattle.resb_icu_files.specs.Ways as spec;

/// A file that stands beside a text.
#[derive(Drop)]
pub struct TextFile {
    /// Its name, as a text names it.
    pub name: String,
    /// What is in it.
    pub bytes: Vec<u8>,
}

/// A file that a group of a text names.
#[derive(Drop)]
pub struct FileNamed {
    /// The place of the group: that of the `:` before its type, in bytes from the text's start.
    pub place: usize,
    /// The name, as the string says it.
    pub name: String,
}

/// The bytes of the first file of this name, if one has it.
pub(crate) fn bytes_named<'a>(files: &'a [TextFile], name: &str) -> Option<&'a [u8]>
    ensures { option_map (λ b. b.now) result ≡ spec.bytes_named files.now name.now }
{
    for file in files {
        if file.name.as_str() == name {
            return Some(file.bytes.as_slice());
        }
    }
    None
}
