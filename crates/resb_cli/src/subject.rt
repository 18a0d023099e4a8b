//! A file that a command is about: it is opened once, beside its pool bundle, and what is had of it
//! comes from here. What is shown of it is in `show`; why it isn't read is said in `refusal`.
use crate::input::Beside;
use crate::levels::check_levels;
use crate::refusal::refuse;
use crate::show::bundle_name;
use resb_opened::Opened;
use resb_program::{BundleFile, FileError, index_file, open_file, read_bundle};
use resb_tree::ResourceBundle;

/// A file that was opened, its name, and that of the pool bundle beside which it is read.
#[derive(Clone, Copy)]
pub(crate) struct Subject<'f> {
    pub(crate) name: &'f str,
    pub(crate) source: BundleFile<'f>,
    pool: Option<&'f str>,
}

impl<'f> Subject<'f> {
    /// Opens a file beside its pool bundle; or the status, once it is said why it isn't opened.
    pub(crate) fn open(
        rt: &HostRuntime,
        name: &'f str,
        bytes: &'f [u8],
        beside: &'f Beside<'_>,
    ) -> Result<Subject<'f>, u8> {
        let pool = beside.name();
        let bundle = beside.bundle(rt, name)?;
        match open_file(bytes, bundle) {
            Ok(source) => Ok(Subject { name, source, pool }),
            Err(e) => Err(refuse(rt, name, bytes, &e, pool)),
        }
    }

    /// Says why the file isn't read, and gives the status of that.
    pub(crate) fn refuse(&self, rt: &HostRuntime, e: &FileError) -> u8 {
        refuse(rt, self.name, self.source.file.bytes(), e, self.pool)
    }

    /// The file as one that was counted; or the status, once it is said why it has no tree. A limit
    /// refuses it for the bytes that its tree would take, as `bundle` does, and for what is kept
    /// for its levels.
    pub(crate) fn index(&self, rt: &HostRuntime, limit: Option<u64>) -> Result<Opened<'f>, u8> {
        let file = &self.source.file;
        let opened = match index_file(rt.alloc(), file, limit) {
            Ok(opened) => opened,
            Err(e) => return Err(self.refuse(rt, &e)),
        };
        if let Some(limit) = limit {
            check_levels(rt, self.name, file.parts(), limit)?;
        }
        Ok(opened)
    }

    /// The file's bundle; or the status, once it is said why there is none.
    pub(crate) fn bundle(
        &self,
        rt: &HostRuntime,
        limit: Option<u64>,
    ) -> Result<ResourceBundle<'f>, u8> {
        match read_bundle(rt.alloc(), bundle_name(self.name), &self.source, limit) {
            Ok(bundle) => Ok(bundle),
            Err(e) => Err(self.refuse(rt, &e)),
        }
    }
}
