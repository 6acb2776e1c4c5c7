// Install an anchor, admit a certificate.
#![tactic(auto)]

mod issuers; // the tests of its issuer
mod operations; // the two operations

pub use operations::{admit, install};
