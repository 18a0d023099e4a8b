//! The command `genrb`: texts in ICU's own form to files, by the words and the statuses of ICU's
//! compiler.
//! How a text is compiled is in `compile`, and which words are taken in `resb_words`.
use crate::below::{all_below, as_names};
use crate::compile::{Call, big_endian, compile_into, until_of};
use crate::folders::check_folder;
use crate::format_version::in_version;
use crate::input::pool_in;
use crate::place::place_of;
use crate::save::{Bytes, save_until, saved, stands_there};
use crate::say::{complain, fail, or_fail, refuse_memory};
use crate::show::settled;
use crate::streams::{NO_MEMORY, made};
use resb_pool_maker::PoolMaker;
use resb_words::{CompileWords, GenrbWords};
use std::cell::RefCell;
use std::path::{Path, PathBuf};

/// What is said where a pool bundle is to go into what is no folder.
const NO_POOL_FOLDER: &str = "--writePoolBundle took this for its folder";

/// What is said to fail where no text does.
const NAME: &str = "genrb";

/// The status for words that ICU's compiler doesn't take: its error for an illegal argument.
pub(crate) const ILLEGAL_ARGUMENT: u8 = 1;

/// The status for a text that is refused: its error for an invalid format.
const INVALID_FORMAT: u8 = 3;

/// The status for a file that can't be read or written: its error for the access to a file.
const FILE_ACCESS: u8 = 4;

/// The status for a file of rules that says none: its error for a failed parse.
pub(crate) const PARSE_ERROR: u8 = 9;

/// The status for a text that isn't in its encoding: its error for an illegal character.
pub(crate) const ILLEGAL_CHAR: u8 = 12;

/// What the program has for a pool bundle that isn't read, for which that compiler has the status
/// of an illegal argument.
pub(crate) const UNREAD_POOL: u8 = 13;

/// Compiles each text to a file that its bundle names, and then writes a pool bundle if that is
/// asked for. The status is that of ICU's compiler.
pub(crate) fn genrb(rt: &HostRuntime, wanted: &GenrbWords<'_>) -> u8 {
    match settled(make_all(rt, wanted)) {
        0 => 0,
        1 => INVALID_FORMAT,
        PARSE_ERROR => PARSE_ERROR,
        ILLEGAL_CHAR => ILLEGAL_CHAR,
        UNREAD_POOL => ILLEGAL_ARGUMENT,
        _ => FILE_ACCESS,
    }
}

/// Compiles and writes all that is asked for. The status is the program's own.
fn make_all(rt: &HostRuntime, wanted: &GenrbWords<'_>) -> Result<u8, u8> {
    let names = wanted.texts.as_slice();
    let texts = or_fail(
        rt,
        NAME,
        made(all_below(rt.alloc(), wanted.source, names, None)),
    )?;
    check_folder(rt, wanted.destination)?;
    let maker = RefCell::new(PoolMaker::new(rt.alloc()));
    let mut call = Call::new(rt);
    let status = compile_texts(rt, wanted, texts.as_slice(), &maker, &mut call);
    if status != 0 {
        if wanted.written_pool.is_some() {
            complain(
                rt,
                NAME,
                "no pool bundle is written, since a text is refused",
            );
        }
        return Ok(status);
    }
    if let Some(folder) = wanted.written_pool {
        write_pool(rt, wanted, &maker, folder, &mut call)?;
    }
    call.end(rt, wanted.writing.depfile)?;
    Ok(0)
}

/// Compiles texts of these names, and adds their bundles to those of which a pool bundle is made,
/// if one is.
fn compile_texts(
    rt: &HostRuntime,
    wanted: &GenrbWords<'_>,
    texts: &[PathBuf],
    maker: &RefCell<PoolMaker>,
    call: &mut Call,
) -> u8 {
    let Ok(texts) = as_names(rt.alloc(), texts) else {
        return fail(rt, NAME, NO_MEMORY);
    };
    let maker = match wanted.written_pool {
        Some(_) => Some(maker),
        None => None,
    };
    compile_into(
        rt,
        &CompileWords {
            texts,
            output: None,
            folder: Some(wanted.destination),
            is_by_name: true,
            is_icu: true,
            encoding: wanted.encoding,
            limit: None,
            file: wanted.file,
            writing: wanted.writing,
            dependencies: Some(wanted.destination),
            is_check: false,
            is_quiet: wanted.is_quiet,
            is_strict: wanted.is_strict,
            is_verbose: wanted.is_verbose,
            counts_last: wanted.is_keeping_on,
        },
        maker,
        call,
    )
}

/// Writes the pool bundle of what texts share into a folder.
fn write_pool(
    rt: &HostRuntime,
    wanted: &GenrbWords<'_>,
    maker: &RefCell<PoolMaker>,
    folder: &str,
    call: &mut Call,
) -> Result<(), u8> {
    if !Path::new(folder).is_dir(rt) {
        return Err(fail(rt, folder, NO_POOL_FOLDER));
    }
    let path = or_fail(rt, folder, pool_in(rt.alloc(), folder))?;
    let name = path.as_path().as_str();
    let pool = pool_of(rt, name, wanted, maker)?;
    let place = or_fail(rt, name, place_of(rt, name))?;
    call.taken.take_or_say(rt, name, &place)?;
    if wanted.writing.depfile.is_some() {
        call.note_pool(rt, name)?;
    }
    if wanted.writing.is_if_changed && stands_there(rt, &place, pool.as_slice()) {
        return Ok(());
    }
    let done = save_until(
        rt,
        &place,
        &Bytes(pool.as_slice()),
        until_of(&wanted.writing),
    );
    or_fail(rt, name, saved(&place, done))
}

/// The bytes of the pool bundle of a name; or the status, once it is said why there are none.
fn pool_of(
    rt: &HostRuntime,
    name: &str,
    wanted: &GenrbWords<'_>,
    maker: &RefCell<PoolMaker>,
) -> Result<Vec<u8>, u8> {
    let Ok(maker) = maker.try_borrow() else {
        return Err(refuse_memory(rt, name));
    };
    let made = if wanted.file.is_compact {
        maker.finish_compact(rt.alloc())
    } else {
        maker.finish(rt.alloc())
    };
    match made {
        Ok(pool) => {
            let pool = in_version(rt, name, pool, wanted.file.version)?;
            if wanted.file.is_big_endian {
                return big_endian(rt, name, pool.as_slice());
            }
            Ok(pool)
        }
        Err(e) => {
            complain(rt, name, e);
            Err(1)
        }
    }
}
