//! Copies of texts and of certificates. They are needed where a text is changed and kept too; nothing below the commands waits for them.
//!
//! - [`copy_text`]: an equal text. [`copy_kind`]: what an equal statement does. [`copy_cert`]: an equal certificate.
#![tactic(auto)]

mod certs;
mod texts;

pub use certs::copy_cert;
pub use texts::{copy_kind, copy_text};
