// Bytes printed into a lent buffer, and the lines of a page: a label and a number for each column.
// Exists for: `lines::row_line`, `lines::total_line`; `bytes::number`.
// Knows: crate definitions' Pages.
// What a page counts, and how many rows it has, is its callers'.
#![tactic(auto)]

pub mod bytes;
pub mod lines;
