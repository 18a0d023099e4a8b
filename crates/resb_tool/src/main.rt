//! The program: `compile IN OUT`, `check IN`, and with no words a text on standard input to the hex
//! digits of its file on standard output. What it does with their bytes is in `resb_program`.
#![tactic(auto)]

mod command_line;

use resb_program::keep_freed_memory;
pub use resb_program::{ToolError, check_file, compile_text, run};
use std::process::ExitCode;

/// Ends the process with the status of what its words ask for.
fn main(rt: HostRuntime) -> ExitCode {
    keep_freed_memory(rt.alloc());
    ExitCode::from(command_line::perform(&rt))
}
