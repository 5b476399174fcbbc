//! Certificates of no plan: a closed set of states, which anyone can check.
//!
//! Callers see a certificate as a list of states, each by its atoms. `read_cert` and `cert_text` are its text
//! (`specs/Format.antt`), `audit` asks whether the states are closed under the actions of a task (`specs/Audits.antt`), and
//! `close` lists the reachable states (`specs/Closing.antt`). Where the audit says yes no plan is valid, whoever made the
//! certificate.
//!
//! Inside, states are found by hash, and applicable actions by the tree of successors. It knows nothing of a search.
#![tactic(auto)]

pub mod answer;
mod auditing;
mod closing;
pub mod errors;
mod laws;
mod reading;
pub mod states;
mod texts;
mod words;

pub use answer::Audit;
pub use auditing::audit;
pub use closing::close;
pub use errors::{CertError, CloseError};
pub use laws::{
    closed_states_are_reachable, emptied_output_is_certified, emptied_searches_keep_few,
    kept_states_are_certified, texts_are_read, yes_has_no_plan,
};
pub use reading::read_cert;
pub use states::Cert;
pub use texts::{audit_text, cert_error_text, cert_text};
