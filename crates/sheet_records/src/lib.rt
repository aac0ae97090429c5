//! The parts of a sheet, each read by itself: the header, a record, and the pairs of values that a
//! record bans. The definitions stand in model_sheet/specs (Sheet, Row, Problem); the crate
//! `sheet_reader` puts the parts together. Start at [`Sheet`] in bytes.rt, then header.rt,
//! record.rt and bans.rt. docs/FORMATS.md, 'The sheet'.
#![tactic(auto)]

pub mod bans;
pub mod bytes;
mod gaps;
pub mod header;
pub mod index;
pub mod record;
pub mod row;

pub use bytes::Sheet;
pub use row::Row;
