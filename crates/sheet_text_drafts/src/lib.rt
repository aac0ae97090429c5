//! The draft of a sheet, and what a statement of a text does to it: the draft with a record or with
//! the domains, or the statement's first fault. It stands on `sheet_text_statements`,
//! `sheet_reader` and `sheet_writer`; the definitions stand in model_text/specs/Drafts.antt. Start
//! at [`Draft`], then statements.rt, which has the tests in their order.
//! docs/FORMATS.md, 'Sheets as text'.
#![tactic(auto)]

pub mod draft;
pub mod fault;
mod records;
mod statements;

pub use draft::Draft;
pub use fault::LineRejection;
