// How a chain is walked, from a certificate up to a root ("How a chain is walked" of document 01).
#![tactic(auto)]

pub mod subjects; // what a walk reads of a certificate, and where it is asked
pub mod issuers; // whether a stored certificate allows a permission, and all that its stored subject does
pub mod steps; // a certificate's own tests, and the step to its issuer
pub mod walking; // the walk from a stored certificate
pub mod signers; // the walk from a certificate that need not be stored: a message may carry its signer
