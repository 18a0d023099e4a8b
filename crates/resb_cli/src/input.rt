//! Files by their names, which may be those of items inside a package, and the pool bundles beside
//! them. How bytes are read is in `streams`; what is said of files is in `show`.
use crate::order::mirrored;
use crate::packages::{found, package_in};
use crate::say::{fail, fail_input, or_fail, refuse_memory};
use crate::shown::Shown;
use crate::streams::{made, read_input};
use crate::unread::Unread;
use resb_package::Package;
use resb_pool_bundle::{FileHead, PoolBundle};
use resb_swap::with_little_table;
use std::alloc::{AllocError, Global};
use std::fmt::Display;
use std::path::{Path, PathBuf};

/// What a pool bundle's file is called.
const POOL: &str = "pool.res";

/// What is said of a pool bundle that is no regular file.
const FILE_ALONE: &str = "a pool bundle is read from a file alone";

/// What is read of a package whatever limit is said, in bytes: ICU's own has some 30 MB.
const LEAST_PACKAGE: u64 = 1 << 26;

/// The bytes of a file; or those of a package, its name, and that of an item of it. What is in
/// big-endian order is mirrored.
#[derive(Drop)]
pub(crate) struct Input {
    bytes: Vec<u8>,
    package: String,
    item: Option<String>,
    /// The little-endian file, if that which was read is big-endian.
    mirrored: Option<Vec<u8>>,
}

/// A file's bytes; and the package that it stands in, with its name there, if it is an item of one.
#[derive(Clone, Copy)]
pub(crate) struct Opened<'f> {
    pub bytes: &'f [u8],
    /// Whether the file was in big-endian order.
    pub is_big: bool,
    folder: Option<(Package<'f>, &'f str)>,
}

/// Where a file's pool bundle is.
#[derive(Drop)]
pub(crate) enum Beside<'f> {
    /// The file uses none, or none is there.
    Nowhere,
    /// It is an item of the file's own package.
    Item(String, &'f [u8]),
    /// It is such an item that was in big-endian order.
    Mirrored(String, Vec<u8>),
    /// It is a file of its own, or an item of another package.
    File(String, Input),
}

/// The bytes of the file that has a name, or the status, once it is said why there are none.
pub(crate) fn bytes_of(rt: &HostRuntime, name: &str, limit: Option<u64>) -> Result<Vec<u8>, u8> {
    read_input(rt, name, limit).map_err(|e| fail_input(rt, name, e))
}

/// The front of a name that is a file's, and what stands behind it and a slash, if there is any.
pub(crate) fn split_package<'n>(rt: &HostRuntime, name: &'n str) -> Option<(&'n str, &'n str)> {
    let mut end = 0usize;
    for part in name.split('/') {
        end = end.saturating_add(part.len());
        let (front, rest) = name.split_at_checked(end)?;
        let item = rest.strip_prefix('/')?;
        if Path::new(front).is_file(rt) {
            return Some((front, item));
        }
        end = end.saturating_add(1);
    }
    None
}

impl Input {
    /// Reads the file that has a name, or the package that has the name's front, as a whole. The
    /// status is answered once it is said why there is none.
    pub(crate) fn read(rt: &HostRuntime, name: &str, limit: Option<u64>) -> Result<Input, u8> {
        match Input::take(rt, name, limit) {
            Ok(input) => Ok(input),
            Err(e) => Err(e.say(rt, name)),
        }
    }

    /// Reads the file or the package, and says nothing.
    fn take(rt: &HostRuntime, name: &str, limit: Option<u64>) -> Result<Input, Unread> {
        let Some((package, item)) = split_package(rt, name) else {
            let bytes = read_input(rt, name, limit).map_err(Unread::Input)?;
            return Input::of_file(rt.alloc(), bytes);
        };
        let most = match limit {
            Some(limit) => Some(limit.max(LEAST_PACKAGE)),
            None => None,
        };
        let bytes = read_input(rt, package, most).map_err(Unread::Input)?;
        let bytes = with_little_table(rt.alloc(), bytes)?;
        Input::of_item(rt.alloc(), bytes, package, item)
    }

    /// The input of the next name: of the same bytes where both are items of one package, which is
    /// read once then.
    pub(crate) fn next(
        before: Option<Input>,
        rt: &HostRuntime,
        name: &str,
        limit: Option<u64>,
    ) -> Result<Input, Unread> {
        let (Some(before), Some((package, item))) = (before, split_package(rt, name)) else {
            return Input::take(rt, name, limit);
        };
        if before.package.as_str() != package {
            return Input::take(rt, name, limit);
        }
        Input::of_item(rt.alloc(), before.bytes, package, item)
    }

    /// A file of these bytes.
    fn of_file(alloc: Global, bytes: Vec<u8>) -> Result<Input, Unread> {
        let bytes = with_little_table(alloc, bytes)?;
        let mirrored = mirrored(alloc, bytes.as_slice())?;
        let package = String::new(alloc);
        Ok(Input {
            bytes,
            package,
            item: None,
            mirrored,
        })
    }

    /// An item of a package of these bytes.
    fn of_item(alloc: Global, bytes: Vec<u8>, package: &str, item: &str) -> Result<Input, Unread> {
        let mirrored = match item_in(alloc, bytes.as_slice(), item) {
            Ok((_, file)) => mirrored(alloc, file)?,
            Err(_) => None,
        };
        match (
            String::from_str(alloc, package),
            String::from_str(alloc, item),
        ) {
            (Ok(package), Ok(item)) => Ok(Input {
                bytes,
                package,
                item: Some(item),
                mirrored,
            }),
            _ => Err(Unread::Memory),
        }
    }

    /// The file, or the status, once it is said why there is none.
    pub(crate) fn open(&self, rt: &HostRuntime, name: &str) -> Result<Opened<'_>, u8> {
        match self.opened(rt.alloc()) {
            Ok(opened) => Ok(opened),
            Err(e) => Err(e.say(rt, name)),
        }
    }

    /// The file, or why there is none, of which nothing is said.
    pub(crate) fn opened(&self, alloc: Global) -> Result<Opened<'_>, Unread> {
        let bytes = self.bytes.as_slice();
        let Some(item) = &self.item else {
            return Ok(self.with(bytes, None));
        };
        let item = item.as_str();
        let (package, bytes) = item_in(alloc, bytes, item)?;
        Ok(self.with(bytes, Some((package, item))))
    }

    /// The file of these bytes, or the mirrored one.
    fn with<'f>(&'f self, bytes: &'f [u8], folder: Option<(Package<'f>, &'f str)>) -> Opened<'f> {
        match &self.mirrored {
            Some(mirrored) => Opened {
                bytes: mirrored.as_slice(),
                is_big: true,
                folder,
            },
            None => Opened {
                bytes,
                is_big: false,
                folder,
            },
        }
    }
}

/// The package that these bytes are, and its item of this name.
fn item_in<'f>(
    alloc: Global,
    bytes: &'f [u8],
    item: &str,
) -> Result<(Package<'f>, &'f [u8]), Unread> {
    let package = package_in(bytes).map_err(Unread::Package)?;
    match found(alloc, &package, item) {
        Ok(Some(bytes)) => Ok((package, bytes)),
        Ok(None) => Err(Unread::NoItem),
        Err(_) => Err(Unread::Memory),
    }
}

/// The pool bundles of a call: the one that was said, and the one that was read last.
#[derive(Drop)]
pub(crate) struct Pools<'w> {
    given: Option<&'w str>,
    limit: Option<u64>,
    last: Option<(String, Input)>,
}

impl<'w> Pools<'w> {
    /// No pool bundle is read yet.
    pub(crate) fn new(given: Option<&'w str>, limit: Option<u64>) -> Pools<'w> {
        let last = None;
        Pools { given, limit, last }
    }

    /// Keeps the pool bundle of a file for the next one.
    pub(crate) fn keep(&mut self, beside: Beside<'_>) {
        if let Beside::File(name, input) = beside {
            self.last = Some((name, input));
        }
    }

    /// The pool bundle of a name: the one that was read last, if it is that.
    fn read<'f>(&mut self, rt: &HostRuntime, name: &str) -> Result<Beside<'f>, u8> {
        if let Some((last, input)) = self.last.take() {
            if last.as_str() == name {
                return Ok(Beside::File(last, input));
            }
        }
        let input = Input::read(rt, name, self.limit)?;
        match String::from_str(rt.alloc(), name) {
            Ok(name) => Ok(Beside::File(name, input)),
            Err(_) => Err(refuse_memory(rt, name)),
        }
    }

    /// The pool bundle in the folder of a file, if anything of its name is there. Standard input
    /// has no folder.
    fn beside<'f>(&mut self, rt: &HostRuntime, name: &str) -> Result<Beside<'f>, u8> {
        let Ok(pool) = pool_name(rt.alloc(), name) else {
            return Err(refuse_memory(rt, name));
        };
        let place = Path::new(pool.as_str());
        if name == "-" || !place.exists(rt) {
            return Ok(Beside::Nowhere);
        }
        if !place.is_file(rt) {
            return Err(fail(rt, pool.as_str(), FILE_ALONE));
        }
        self.read(rt, pool.as_str())
    }
}

impl<'f> Opened<'f> {
    /// Where the pool bundle is that the file uses: the one that was said, or the `pool.res` in the
    /// same folder of files or of the package.
    pub(crate) fn pool(
        &self,
        rt: &HostRuntime,
        name: &str,
        given: Option<&str>,
        limit: Option<u64>,
    ) -> Result<Beside<'f>, u8> {
        self.pool_among(rt, name, &mut Pools::new(given, limit))
    }

    /// Where the pool bundle is that the file uses, read only where it isn't the one that was read
    /// last.
    pub(crate) fn pool_among(
        &self,
        rt: &HostRuntime,
        name: &str,
        pools: &mut Pools<'_>,
    ) -> Result<Beside<'f>, u8> {
        if !uses_pool(self.bytes) {
            return Ok(Beside::Nowhere);
        }
        match (pools.given, &self.folder) {
            (Some("-"), _) => Err(fail(rt, "resb", FILE_ALONE)),
            (Some(given), _) => pools.read(rt, given),
            (None, Some((package, item))) => pool_item(rt, name, package, item),
            (None, None) => pools.beside(rt, name),
        }
    }
}

/// The pool bundle in the item's folder of the package.
fn pool_item<'f>(
    rt: &HostRuntime,
    name: &str,
    package: &Package<'f>,
    item: &str,
) -> Result<Beside<'f>, u8> {
    let (Ok(pool), Ok(path)) = (pool_name(rt.alloc(), item), pool_name(rt.alloc(), name)) else {
        return Err(refuse_memory(rt, name));
    };
    match found(rt.alloc(), package, pool.as_str()) {
        Ok(Some(bytes)) => mirrored_item(rt, name, path, bytes),
        Ok(None) => Ok(Beside::Nowhere),
        Err(_) => Err(refuse_memory(rt, name)),
    }
}

/// The pool bundle of a file that is an item of this path, in little-endian order.
fn mirrored_item<'f>(
    rt: &HostRuntime,
    file: &str,
    path: String,
    bytes: &'f [u8],
) -> Result<Beside<'f>, u8> {
    match mirrored(rt.alloc(), bytes) {
        Ok(Some(mirrored)) => Ok(Beside::Mirrored(path, mirrored)),
        Ok(None) => Ok(Beside::Item(path, bytes)),
        Err(e) => Err(refuse_pool(rt, file, path.as_str(), e)),
    }
}

/// Says why a file's pool bundle is none, and gives the status of that.
fn refuse_pool<C: Display + Drop>(rt: &HostRuntime, file: &str, name: &str, cause: C) -> u8 {
    let (file, name) = (Shown(file), Shown(name));
    let _ = eprintln!(rt; "{file}: its pool bundle {name}: {cause}");
    1
}

/// Whether a file's head says that it uses a pool bundle.
fn uses_pool(file: &[u8]) -> bool {
    match FileHead::read(file) {
        Ok(head) => head.uses_pool(),
        Err(_) => false,
    }
}

/// The name of the pool bundle in the same folder.
fn pool_name(alloc: Global, name: &str) -> Result<String, AllocError> {
    match name.rsplit_once('/') {
        Some((folder, _)) => format!(in alloc; "{folder}/{POOL}"),
        None => String::from_str(alloc, POOL),
    }
}

/// The name of the pool bundle over which files are written: this one, or that in this folder. What
/// isn't there is a folder's name, unless it ends as a file's does.
pub(crate) fn lending_name(rt: &HostRuntime, name: &str) -> Result<String, u8> {
    if name == "-" {
        return Err(fail(rt, "resb", FILE_ALONE));
    }
    let path = Path::new(name);
    let is_file = !path.is_dir(rt) && (name.ends_with(".res") || path.exists(rt));
    let path = if is_file {
        made(PathBuf::from_str(rt.alloc(), name))
    } else {
        pool_in(rt.alloc(), name)
    };
    let path = or_fail(rt, name, path)?;
    or_fail(
        rt,
        name,
        made(String::from_str(rt.alloc(), path.as_path().as_str())),
    )
}

/// The name of the pool bundle in a folder.
pub(crate) fn pool_in(alloc: Global, folder: &str) -> Result<PathBuf, &'static str> {
    made(Path::new(folder).join(alloc, POOL))
}

impl Beside<'_> {
    /// The pool bundle's name, if there is one.
    pub(crate) fn name(&self) -> Option<&str> {
        match self {
            Beside::Nowhere => None,
            Beside::Item(name, _) | Beside::Mirrored(name, _) | Beside::File(name, _) => {
                Some(name.as_str())
            }
        }
    }

    /// The pool bundle of the file of a name, if there is one; or the status, once it is said why
    /// it is none.
    pub(crate) fn bundle(
        &self,
        rt: &HostRuntime,
        file: &str,
    ) -> Result<Option<PoolBundle<'_>>, u8> {
        let (name, bytes) = match self {
            Beside::Nowhere => return Ok(None),
            Beside::Item(name, bytes) => (name.as_str(), *bytes),
            Beside::Mirrored(name, bytes) => (name.as_str(), bytes.as_slice()),
            Beside::File(name, input) => {
                let name = name.as_str();
                (name, input.open(rt, name)?.bytes)
            }
        };
        match PoolBundle::read(bytes) {
            Ok(pool) => Ok(Some(pool)),
            Err(e) => Err(refuse_pool(rt, file, name, e)),
        }
    }
}
