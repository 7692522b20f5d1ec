//! The text of a certificate, written and read: its head line, its lines, and which head line of a text is the last.
#![tactic(auto)]

mod cert;
mod certs;
mod head;
mod last;
mod law;
mod line;
mod numbers;
mod parts;
mod settings;
mod written;

pub use cert::cert_text;
pub use certs::{certs_text, used_cert};
pub use def_certtext::{Asked, CertFail, Written};
pub use head::{cut_word, head_text, read_asked, read_head};
pub use last::{HeadAt, find_head, find_last, last_head};
pub use law::written_law;
pub use settings::read_settings;
pub use written::{read_certs, read_tail, read_written, third_if};

/// Want of memory.
pub type Memory = std::alloc::AllocError;
