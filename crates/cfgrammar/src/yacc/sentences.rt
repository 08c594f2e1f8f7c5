//! What the sentences of rules cost, minimal sentences, and the certificate of least costs.

pub use cfgcertificate::{check_least, check_reached};
pub use cfgcosts::{CostError, SentenceError, min_sentence_over};
pub use cfgyacc::grammar::SentenceGenerator;
