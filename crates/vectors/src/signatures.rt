//! Public types and calls of the library and of `cfgtool` that no row needs by their own names, written out as users
//! may write them. `tools/surface check` sees that each line of docs/SURFACE.txt is here or in the code of rows and
//! consumers. Nothing here runs. What calls make is returned, since a function that drops it proves how.

pub mod bison;
pub mod grammars;
pub mod maps;
pub mod own;
pub mod paths;
pub mod programs;
pub mod sections;
pub mod sets;
pub mod texts;
pub mod traits;
pub mod values;
