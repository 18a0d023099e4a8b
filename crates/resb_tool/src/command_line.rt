//! The command line: the process's words, and what is done with the files that they name.
//! What the words ask for, and what is done with the bytes of files, is in `resb_program`.
ghost use Rattle.std.specs.Prelude.{◌≡◌, ◌⊎◌, ◌≤◌, IfErr};
ghost use Rattle.resb_program.specs.Program.{status_of};

use resb_program::{Command, ToolError, check_file, command_of, compile_text, read_all, run};
use std::io::ErrorKind;
use std::rt::{Env, Files};
use std::{env, fs, io};

/// The words behind the program's own name.
fn words_of<R: Env + AllocGlobal>(rt: &R) -> io::Result<Vec<String>> {
    let mut words = env::args(rt)?;
    let _program = words.next();
    let words: Vec<String> = words.collect(rt.alloc())?;
    Ok(words)
}

/// Does what the words of the command line ask, and answers the status to end with: 0, 1 where the
/// input or memory is refused, 2 for the usage fault and for a file or stream that fails.
pub fn perform(rt: &HostRuntime) -> u8
    ensures { result ≤ 2 }
{
    let words = match words_of(rt) {
        Ok(words) => words,
        Err(e) if e.kind() == ErrorKind::OutOfMemory => return refuse(rt, ToolError::Memory),
        Err(_) => return usage(rt),
    };
    match command_of(words.as_slice()) {
        None => usage(rt),
        Some(Command::Stream) => match run(rt.alloc(), &mut rt.stdin(), &mut rt.stdout()) {
            Ok(()) => 0,
            Err(e) => refuse(rt, e),
        },
        Some(Command::Compile { input, output }) => compile_named(rt, input, output),
        Some(Command::Check { input }) => check_named(rt, input),
    }
}

/// Says how the program is called, and answers the status of that fault.
fn usage<R: Eprint>(rt: &R) -> u8
    ensures { result ≡ 2 }
{
    let _ = eprintln!(rt; "usage: resb_tool [compile IN OUT | check IN]");
    2
}

/// Says what is wrong, and answers its status.
fn refuse<R: Eprint>(rt: &R, e: ToolError) -> u8
    ensures { result ≡ status_of e }
{
    let _ = eprintln!(rt; "{e}");
    e.status()
}

/// The bytes of the file of that name, read in blocks as standard input is.
fn read_file<R: Files + AllocGlobal>(rt: &R, name: &str) -> Result<Vec<u8>, ToolError>
    ensures { IfErr result (λ e. (e ≡ ToolError.Input) ⊎ (e ≡ ToolError.Memory)) }
{
    match fs::open(rt, name) {
        Ok(mut file) => read_all(rt.alloc(), &mut file),
        Err(e) if e.kind() == ErrorKind::OutOfMemory => Err(ToolError::Memory),
        Err(_) => Err(ToolError::Input),
    }
}

/// The bytes of the file of that name, or the status, once it is said what is wrong.
fn read_named<R: Files + AllocGlobal + Eprint>(rt: &R, name: &str) -> Result<Vec<u8>, u8>
    ensures { IfErr result (λ status. status ≤ 2) }
{
    match read_file(rt, name) {
        Ok(bytes) => Ok(bytes),
        Err(ToolError::Memory) => Err(refuse(rt, ToolError::Memory)),
        Err(_) => {
            let _ = eprintln!(rt; "cannot read {name}");
            Err(2)
        }
    }
}

/// The file's bytes are made before OUT is opened; a write fault leaves an unknown part of them
/// there.
fn compile_named<R: Files + AllocGlobal + Eprint>(rt: &R, input: &str, output: &str) -> u8
    ensures { result ≤ 2 }
{
    let text = match read_named(rt, input) {
        Ok(text) => text,
        Err(status) => return status,
    };
    let file = match compile_text(rt.alloc(), text.as_slice()) {
        Ok(file) => file,
        Err(e) => return refuse(rt, e),
    };
    match fs::write(rt, output, file.as_slice()) {
        Ok(()) => 0,
        Err(e) if e.kind() == ErrorKind::OutOfMemory => refuse(rt, ToolError::Memory),
        Err(_) => {
            let _ = eprintln!(rt; "cannot write {output}");
            2
        }
    }
}

/// Prints how many resources the file of that name has.
fn check_named<R: Files + AllocGlobal + Eprint + Print>(rt: &R, input: &str) -> u8
    ensures { result ≤ 2 }
{
    let file = match read_named(rt, input) {
        Ok(file) => file,
        Err(status) => return status,
    };
    match check_file(rt.alloc(), file.as_slice()) {
        Ok(count) => match println!(rt; "ok {count} resources") {
            Ok(()) => 0,
            Err(_) => refuse(rt, ToolError::Output),
        },
        Err(e) => refuse(rt, e),
    }
}
