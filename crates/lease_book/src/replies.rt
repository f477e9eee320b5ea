//! What is printed of a reply.

ghost use Rattle.std.specs.Prelude.{◌≡◌, Some};
ghost use Rattle.lease_book.specs.ReplyTexts.{refusal_number, reply_name, reply_text};

use crate::events::Reply;
use std::fmt;

impl Reply {
    /// The printed number of a refusal, 1 to 5; none of another reply.
    pub fn number(&self) -> Option<u8>
        ensures { result ≡ refusal_number self.now }
    {
        match self {
            Reply::UnknownLease => Some(1),
            Reply::NotHeld => Some(2),
            Reply::OtherEntry => Some(3),
            Reply::AlreadyPublished => Some(4),
            Reply::BadCertificate(_) => Some(5),
            _ => None,
        }
    }

    /// The printed name.
    pub fn name(&self) -> &'static str
        ensures { result.now ≡ reply_name self.now }
    {
        match self {
            Reply::Given { .. } => "given",
            Reply::Nothing => "nothing",
            Reply::Freed(_) => "freed",
            Reply::GaveUp => "gave up",
            Reply::UnknownLease => "UnknownLease",
            Reply::NotHeld => "NotHeld",
            Reply::OtherEntry => "OtherEntry",
            Reply::AlreadyPublished => "AlreadyPublished",
            Reply::BadCertificate(_) => "BadCertificate",
            Reply::Published(_) => "published",
        }
    }
}

impl fmt::Display for Reply {
    ghost output = { λ reply. Some (reply_text reply) };

    fn fmt<W: fmt::Write>(&self, f: &mut fmt::Formatter<W>) -> fmt::Result {
        if let Some(number) = self.number() {
            write!(f, "{number} ")?;
        }
        write!(f, "{}", self.name())?;
        match self {
            Reply::Given { lease, .. } => write!(f, " {lease}"),
            Reply::Freed(count) => write!(f, " {count}"),
            Reply::BadCertificate(fault) => write!(f, " {fault}"),
            Reply::Published(tricks) => write!(f, " {tricks}"),
            _ => Ok(()),
        }
    }
}
