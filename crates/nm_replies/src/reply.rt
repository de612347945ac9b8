ghost use Rattle.std.specs.Prelude.{◌≡◌, ◌≢◌, ◌==◌, [], if◌then◌else◌, IfSome, IfNone};

use nm_wire::SimpleReply;
use std::marker::Model;

/// A simple reply to one request ("Simple reply message").
#[derive(Drop)]
pub struct Reply {
    cookie: u64,
    content: Content,
}

#[derive(Drop)]
enum Content {
    Done,
    WithData(Vec<u8>),
    Refused(u32),
}

impl Model for Reply {
    ghost use Rattle.nm_replies.specs.Answer.{Answer};

    ghost Value = { Answer };

    ghost use Rattle.nm_replies.specs.Inside.{answer_of};

    ghost view = { answer_of };
}

impl Reply {
    /// The request with this cookie is done; it asked for no data.
    pub fn done(cookie: u64) -> Reply
        ensures { result ≡ record { error = 0; cookie = cookie; bytes = [] } }
    {
        Reply {
            cookie,
            content: Content::Done,
        }
    }

    /// The READ with this cookie is done, and these are the data.
    pub fn with_data(cookie: u64, bytes: Vec<u8>) -> Reply
        ensures { result ≡ record { error = 0; cookie = cookie; bytes = bytes.items } }
    {
        Reply {
            cookie,
            content: Content::WithData(bytes),
        }
    }

    /// The request with this cookie failed with this error ("Error values").
    pub fn error(cookie: u64, code: u32) -> Reply
        requires { code ≢ 0 }
        ensures { result ≡ record { error = code; cookie = cookie; bytes = [] } }
    {
        Reply {
            cookie,
            content: Content::Refused(code),
        }
    }

    /// Gives the data back, if the reply was made with some; takes no memory.
    pub fn into_data(self) -> Option<Vec<u8>>
        ensures some { IfSome result (λ bytes. bytes.items ≡ self.bytes) }
        ensures none { IfNone result (self.bytes ≡ []) }
    {
        let Reply { cookie: _, content } = self;
        match content {
            Content::WithData(bytes) => Some(bytes),
            _ => None,
        }
    }

    // The header of the reply.
    pub(crate) fn head(&self) -> SimpleReply
        ensures { result ≡ record { error = self.now.error; cookie = self.now.cookie } }
    {
        SimpleReply {
            error: match &self.content {
                Content::Refused(code) => *code,
                _ => 0,
            },
            cookie: self.cookie,
        }
    }

    // The data that the reply was made with.
    pub(crate) fn data(&self) -> &[u8]
        ensures { result.now ≡ self.now.bytes }
    {
        match &self.content {
            Content::WithData(bytes) => bytes.as_slice(),
            _ => &[],
        }
    }
}
