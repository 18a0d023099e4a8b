//! The version of the format in a file's header, for which the words of ICU's compiler ask.
//! Which versions are written where is said in `resb_write` and `resb_pool_maker`.
use crate::say::complain;

/// The place of the version's first byte in a file (ICU's `udata.h`).
const PLACE: usize = 16;

/// The file of a name in a version of the format, if one is asked for. One that is of version 2.0
/// is one of 3.0 under another number. A file of 3.0 is refused where 2.0 is asked for: it leaves
/// strings to a pool bundle, or is a pool bundle that has strings.
pub(crate) fn in_version(
    rt: &HostRuntime,
    name: &str,
    mut file: Vec<u8>,
    wanted: Option<u8>,
) -> Result<Vec<u8>, u8> {
    match (wanted, file.get_mut(PLACE)) {
        (Some(2), Some(3)) => {
            complain(
                rt,
                name,
                "its file has format 3.0, and --formatVersion asks for 2",
            );
            return Err(1);
        }
        (Some(3), Some(version)) => *version = 3,
        _ => {}
    }
    Ok(file)
}
