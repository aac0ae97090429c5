//! Sheets as text: lines, words and statements, the sheet or the fault that a text gives, the text
//! of a sheet, and what `scribe` writes. Definitions, claims and worked cases, no code; the claims
//! are proved in `theorems_text`. It stands on `model_sheet`. Start with `specs/Words.antt`, then
//! `specs/Statements.antt` and `specs/Reading.antt`.
#![tactic(auto)]
