// Loading a sheet (01, "The sheet" and refusals 2 to 11), in two steps: the shape, 2 to 9, and the group elements, 10 and 11.
#![tactic(auto)]

mod elements; // elements.rt: the entries and the statement
mod loading; // loading.rt: the calls
mod shape; // shape.rt: the mark, the fixed fields and the length
mod sheet; // sheet.rt: the values of a sheet that loads

pub use elements::test_elements;
pub use loading::{entries, load};
pub use shape::{FIXED_FIELDS, MARK, entry_count, header, sheet_length, test_header};
pub use sheet::Sheet;
