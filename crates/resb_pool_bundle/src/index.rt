//! The index of a file of any version: how many words it has, where keys and units end, and what it
//! says of pool bundles. What a file may say of them is checked in `head`.
ghost use Rattle.std.specs.Prelude.{◌≡◌, ◌+◌, ◌*◌, ◌≤◌, min, length, slice_range};
ghost use Rattle.resb_head.specs.Codes.{version_bytes};
ghost use Rattle.resb_head.specs.File as file;
ghost use Rattle.resb_pool_bundle.specs.Fields as said;
ghost use Rattle.resb_pool_bundle.specs.Inner.Sized.{ReadsVersion, CountsFields, FindsEnds};

use resb_format::BinaryDeserializerError;
use resb_format::bytes::{byte_at, word_at};
use resb_head::{BinHeader, BinReprInfo, CharsetFamily, FormatVersion};

/// The index of a file whose header, version and sizes pass their checks. Ends are in bytes of the
/// body. (ICU's `uresdata.h`.)
#[derive(Clone, Copy)]
pub(crate) struct Index<'a> {
    pub(crate) bytes: &'a [u8],
    pub(crate) body: &'a [u8],
    pub(crate) version: FormatVersion,
    pub(crate) fields: usize,
    pub(crate) keys_end: usize,
    pub(crate) block_end: usize,
    pub(crate) ghost long: { 24 ≤ length bytes.now },
    pub(crate) ghost cut: { body.now ≡ file.body_of bytes.now },
    pub(crate) ghost spelled: { version_bytes version ≡ slice_range bytes.now 16 20 },
    pub(crate) ghost counted: { fields ≡ said.index_length bytes.now },
    pub(crate) ghost enough: { 5 ≤ fields },
    pub(crate) ghost inside: { 4 * (1 + min fields 8) ≤ length body.now },
    pub(crate) ghost keys_said: { keys_end ≡ 4 * file.keys_end bytes.now },
    pub(crate) ghost block_said: { block_end ≡ 4 * said.block_end_in bytes.now },
    pub(crate) ghost ordered: { keys_end ≤ block_end },
    pub(crate) ghost ends_inside: { block_end ≤ length body.now },
}

/// Refuses what is not read: another family of character sets than ASCII, characters of another
/// size than 2 bytes, version 1.0.
fn check_version(info: &BinReprInfo) -> Result<(), BinaryDeserializerError>
    ensures { ReadsVersion info.now result }
{
    let CharsetFamily::Ascii = info.charset_family else {
        return Err(BinaryDeserializerError::unsupported_format(
            "bundle and system character set families do not match",
        ));
    };
    if info.size_of_char != 2 {
        return Err(BinaryDeserializerError::unsupported_format(
            "characters of size other than 2 are not supported",
        ));
    }
    if let FormatVersion::V1_0 = info.format_version {
        return Err(BinaryDeserializerError::unsupported_format(
            "format version 1.0 is not supported",
        ));
    }
    Ok(())
}

/// How many words the index has, once that many stand in the body.
fn count_fields(bytes: &[u8], body: &[u8]) -> Result<usize, BinaryDeserializerError>
    requires { body.now ≡ file.body_of bytes.now }
    ensures { CountsFields bytes.now result }
{
    if body.len() < 8 {
        return Err(BinaryDeserializerError::end_of_input());
    }
    let fields = (word_at(body, 1) % 0x100) as usize;
    if fields < 5 {
        return Err(BinaryDeserializerError::invalid_data("invalid index field count"));
    }
    if body.len() < 4 * (1 + fields.min(8)) {
        return Err(BinaryDeserializerError::end_of_input());
    }
    Ok(fields)
}

/// Where keys and units end in the body, in bytes, once both ends lie inside.
fn find_ends(
    bytes: &[u8],
    body: &[u8],
    fields: usize,
) -> Result<(usize, usize), BinaryDeserializerError>
    requires long { 24 ≤ length bytes.now }
    requires cut { body.now ≡ file.body_of bytes.now }
    requires counted { fields ≡ said.index_length bytes.now }
    requires enough { 5 ≤ fields }
    requires inside { 4 * (1 + min fields 8) ≤ length body.now }
    ensures { FindsEnds bytes.now result }
{
    let keys_end = 4 * word_at(body, 2) as usize;
    if keys_end > body.len() {
        return Err(BinaryDeserializerError::end_of_input());
    }
    if byte_at(bytes, 16) < 2 {
        return Ok((keys_end, keys_end));
    }
    if fields < 7 {
        return Err(BinaryDeserializerError::invalid_data(
            "offset to the end of 16-bit data not specified",
        ));
    }
    let block_end = 4 * word_at(body, 7) as usize;
    if block_end < keys_end || block_end > body.len() {
        return Err(BinaryDeserializerError::end_of_input());
    }
    Ok((keys_end, block_end))
}

impl<'a> Index<'a> {
    ghost use Rattle.std.specs.Prelude.{◌==◌, ◌&&◌, ◌||◌, not, is_some, Some, None};
    ghost use Rattle.std.specs.Prelude.{MatchResult};
    ghost use Rattle.resb_format.specs.Error.{refusal_of, first_refusal};
    ghost use Rattle.resb_pool_bundle.specs.Checks.{head_refusal, size_checks, lending_checks};

    /// The index of a file. Header, version and sizes are checked in this order, and the first
    /// check that fails answers.
    pub(crate) fn read(bytes: &'a [u8]) -> Result<Index<'a>, BinaryDeserializerError>
        ensures { MatchResult result
            (λ i. (head_refusal bytes.now ≡ first_refusal (lending_checks bytes.now))
            × (i.bytes.now ≡ bytes.now))
            (λ e. head_refusal bytes.now ≡ Some (refusal_of e)) }
    {
        let header = BinHeader::try_from(bytes)?;
        check_version(&header.repr_info)?;
        let (_, body) = bytes.split_at(bytes.len().min(usize::from(header.size)));
        Index::of_body(bytes, body, header.repr_info.format_version)
    }

    /// The index of a file with this body and version, once its sizes pass their checks.
    fn of_body(
        bytes: &'a [u8],
        body: &'a [u8],
        version: FormatVersion,
    ) -> Result<Index<'a>, BinaryDeserializerError>
        requires long { 24 ≤ length bytes.now }
        requires cut { body.now ≡ file.body_of bytes.now }
        requires spelled { version_bytes version ≡ slice_range bytes.now 16 20 }
        ensures { MatchResult result
            (λ i. (first_refusal (size_checks bytes.now) ≡ None) × (i.bytes.now ≡ bytes.now))
            (λ e. first_refusal (size_checks bytes.now) ≡ Some (refusal_of e)) }
    {
        let fields = count_fields(bytes, body)?;
        let (keys_end, block_end) = find_ends(bytes, body, fields)?;
        Ok(Index {
            bytes,
            body,
            version,
            fields,
            keys_end,
            block_end,
        })
    }

    /// The attributes, whose bits say what a file is; none before version 1.2.
    pub(crate) fn attributes(self) -> u32
        ensures { result ≡ said.attributes_in self.entry.bytes.now }
    {
        let is_new = byte_at(self.bytes, 16) >= 2 || byte_at(self.bytes, 17) >= 2;
        if self.fields >= 6 && is_new {
            word_at(self.body, 6)
        } else {
            0
        }
    }

    /// Whether the file is a pool bundle.
    pub(crate) fn is_pool(self) -> bool
        ensures { result ≡ said.is_pool self.entry.bytes.now }
    {
        self.attributes() / 2 % 2 == 1
    }

    /// Whether the file uses a pool bundle.
    pub(crate) fn uses_pool(self) -> bool
        ensures { result ≡ said.uses_pool self.entry.bytes.now }
    {
        self.attributes() / 4 % 2 == 1
    }

    /// The checksum of the pool bundle that the file is or uses.
    pub(crate) fn checksum(self) -> Option<u32>
        ensures { result ≡ said.checksum_in self.entry.bytes.now }
    {
        if self.fields < 8 {
            return None;
        }
        Some(word_at(self.body, 8))
    }

    /// Whether the checksum is there, if the file is or uses a pool bundle.
    pub(crate) fn has_checksum_due(self) -> bool
        ensures { let bytes = self.entry.bytes.now in
            result ≡ (not (said.is_pool bytes || said.uses_pool bytes)
            || is_some (said.checksum_in bytes)) }
    {
        !(self.is_pool() || self.uses_pool()) || self.checksum().is_some()
    }

    /// Whether the file uses a pool bundle, if it has strings in one.
    pub(crate) fn has_pool_of_strings(self) -> bool
        ensures { let bytes = self.entry.bytes.now in
            result ≡ (said.uses_pool bytes
            || (said.limit_in bytes == 0 && said.short_limit_in bytes == 0)) }
    {
        self.uses_pool() || (self.limit() == 0 && self.short_limit() == 0)
    }

    /// The first index of a string that is the file's own, as a descriptor tells it.
    pub(crate) fn limit(self) -> u32
        ensures { result ≡ said.limit_in self.entry.bytes.now }
    {
        if byte_at(self.bytes, 16) < 3 {
            return 0;
        }
        let upper = self.attributes() / 0x1000 % 0x10;
        word_at(self.body, 1) / 0x100 + 0x100_0000 * upper
    }

    /// The first index of the file's own strings, as a unit tells it.
    pub(crate) fn short_limit(self) -> u16
        ensures { result ≡ said.short_limit_in self.entry.bytes.now }
    {
        if byte_at(self.bytes, 16) < 3 {
            return 0;
        }
        (self.attributes() / 0x1_0000) as u16
    }
}
