//! The program of docs/READING.md, which opens the file `zones.res` of the folder that it runs in,
//! and prints the number `base` of a zone. How a file is read is shown in `resb_examples`.
#![tactic(auto)]

use resb_examples::reading::base_of;
use std::fs;
use std::io::{self, ErrorKind};

fn main(rt: HostRuntime) -> io::Result<()> {
    let file = fs::read(&rt, "zones.res")?;
    match base_of(rt.alloc(), &file, "Pole") {
        Ok(Some(base)) => println!(rt; "{base}"),
        Ok(None) => println!(rt; "no such zone"),
        Err(error) => {
            eprintln!(rt; "{error}")?;
            Err(ErrorKind::InvalidData.into())
        }
    }
}
