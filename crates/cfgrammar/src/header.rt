//! The `%grmtools` section of a file: its reader, its values, and its errors.

pub use cfgerrors::{HeaderError, HeaderErrorKind};
pub use cfgheader::{GrmtoolsSectionParser, Header, HeaderFault};
pub use cfgkinds::{HeaderValue, KindFault, Namespaced, Setting, Value};
pub use cfgsection::named::kind_if_named;
