//! The worked rows of what stands on `resb`: records, the zone table, ICU's time zones, the code of
//! the pages, and what the programs do over bytes and over any reader and writer. Texts, files and
//! streams, with the answers that the rules ask for.
//! Only tests stand here, so that `resb_examples`, `resb_zoneinfo` and `resb_program` are not
//! proved twice.
#![tactic(auto)]

#[cfg(test)]
mod blame_rows;
#[cfg(test)]
mod order_rows;
#[cfg(test)]
mod page_rows;
#[cfg(test)]
mod pool_rows;
#[cfg(test)]
mod record_rows;
#[cfg(test)]
mod rows;
#[cfg(test)]
mod shapes;
#[cfg(test)]
mod stream_rows;
#[cfg(test)]
mod text_rows;
#[cfg(test)]
mod zone_rows;
#[cfg(test)]
mod zoneinfo_rows;
