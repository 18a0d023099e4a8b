//! Names of files below a folder, as the words of ICU's tools say them.
//! Folders whose files are all meant are in `folders`.
use std::alloc::{AllocError, Global};
use std::path::{Path, PathBuf};

/// The paths of files of these names below a folder, with this ending behind each name that has
/// none, if one is said.
pub(crate) fn all_below(
    alloc: Global,
    folder: &str,
    names: &[&str],
    ending: Option<&str>,
) -> Result<Vec<PathBuf>, AllocError> {
    let mut paths = Vec::new(alloc);
    for name in names.iter().copied() {
        paths.push(match ending {
            Some(ending) if Path::new(name).extension().is_none() => {
                below(alloc, folder, format!(in alloc; "{name}{ending}")?.as_str())?
            }
            _ => below(alloc, folder, name)?,
        })?;
    }
    Ok(paths)
}

/// The path of the file of a name below a folder; below the current one it is the name alone.
fn below(alloc: Global, folder: &str, name: &str) -> Result<PathBuf, AllocError> {
    if folder == "." {
        return PathBuf::from_str(alloc, name);
    }
    Path::new(folder).join(alloc, name)
}

/// Paths as names.
pub(crate) fn as_names(alloc: Global, paths: &[PathBuf]) -> Result<Vec<&str>, AllocError> {
    let names = paths.iter().map(|path| path.as_path().as_str());
    names.collect::<Vec<&str>>(alloc)
}
