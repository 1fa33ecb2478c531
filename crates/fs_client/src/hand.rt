//! How a client holds its write stream and its link.
ghost use Rattle.std.specs.Prelude.{◌≡◌, ◌<◌, ◌^◌, IfOk};
ghost use Rattle.fs_local.specs.Ask.{batch_request, remove_request};

use fs_path::Root;
use fs_request::{Envelope, Request, StreamRequest};
use fs_write::Writes;
use std::alloc::{AllocError, Global};
use std::marker::Model;
use std::mem;

/// The present link.
#[derive(Clone, Copy)]
pub(crate) struct Link {
    // the request that opened or resumed the stream was answered
    greeted: bool,
    // a snapshot was taken on it
    raised: bool,
}

/// How a client holds its write stream and its link.
///
///     connected, and listening to 1      to be sent: the opening of a stream, 1
///     the stream is 5                    it is greeted, and batches may be sent
///     the link is lost, and connected    to be sent: the resumption of 5, 1
#[derive(Drop)]
pub(crate) struct Hand {
    alloc: Global,
    // the client's stream, once it was opened
    stream: Option<u64>,
    // so many of its batches are finished, as far as the client knows
    token: u64,
    link: Option<Link>,
    // what is to be sent on the link, batches aside
    out: Vec<Envelope>,
}

impl Model for Hand {
    ghost use Rattle.fs_local.specs.Codes.{hand_code};
    ghost use Rattle.fs_local.specs.State.{Hand};

    ghost Value = { Hand };

    ghost coded = { hand_code };

    ghost use Rattle.fs_client.specs.Listed.{link_of};

    ghost view = { λ h. record { stream = h.stream; token = h.token; link = link_of h.link; out = h.out.items } };
}

/// The request that stops listening to a target.
pub(crate) fn remove_request(alloc: Global, root: &Root, id: u32) -> Result<Envelope, AllocError>
    requires { id < 2 ^ 31 }
    ensures { IfOk result (λ e. e ≡ remove_request root.now id) }
{
    Ok(Envelope {
        id: None,
        request: Request::RemoveTarget {
            database: root.copy(alloc)?,
            id: id as i32,
        },
    })
}

/// The request that sends a batch.
pub(crate) fn batch_request(
    alloc: Global,
    root: &Root,
    token: u64,
    writes: &Writes,
) -> Result<Envelope, AllocError>
    ensures { IfOk result (λ e. e ≡ batch_request root.now token writes.now) }
{
    let database = root.copy(alloc)?;
    let writes = writes.copy(alloc)?;
    Ok(Envelope {
        id: None,
        request: Request::Write {
            database,
            asked: StreamRequest::Batch { token, writes },
        },
    })
}

impl Hand {
    ghost use Rattle.std.specs.Prelude.{◌≡◌, ◌∷◌, ◌++◌, suc, ◌==◌, ◌<◌, ◌^◌, [], false, IfOk, None, OnErr, OnOk, Some};
    ghost use Rattle.fs_local.specs.Answered.{greeted_link, opened_in};
    ghost use Rattle.fs_local.specs.Ask.{asking, stream_request as greeting_request};
    ghost use Rattle.fs_local.specs.Connect.{cut_off};
    ghost use Rattle.fs_local.specs.Raise.{raised_link};
    ghost use Rattle.fs_local.specs.Shown.{is_raised};
    ghost use Rattle.fs_local.specs.State.{Hand as HandState, empty_hand};
    ghost use Rattle.fs_request.specs.declared.request.Envelope.{Envelope};
    ghost use Rattle.fs_local.specs.TakeOut.{is_greeted};

    /// No stream and no link.
    pub(crate) fn new(alloc: Global) -> Hand
        ensures { result ≡ empty_hand }
    {
        Hand {
            alloc,
            stream: None,
            token: 0,
            link: None,
            out: Vec::new(alloc),
        }
    }

    pub(crate) fn token(&self) -> u64
        ensures { result ≡ self.now.token }
    {
        self.token
    }

    /// Whether batches may be sent.
    pub(crate) fn is_greeted(&self) -> bool
        ensures { result ≡ is_greeted self.now.link }
    {
        match self.link {
            Some(link) => link.greeted,
            None => false,
        }
    }

    /// Whether a snapshot was taken on the present link.
    pub(crate) fn is_raised(&self) -> bool
        ensures { result ≡ is_raised self.now.link }
    {
        match self.link {
            Some(link) => link.raised,
            None => false,
        }
    }

    /// A request is to be sent, if there is a link.
    pub(crate) fn ask(&mut self, e: Envelope) -> Result<(), AllocError>
        ensures ok { OnOk result (self.new ≡ asking e self.old) }
        ensures err { OnErr result (self.new ≡ self.old) }
    {
        if self.link.is_some() {
            self.out.push(e)?;
        }
        Ok(())
    }

    /// What was asked last is to be sent no longer, if there is a link. It takes no memory.
    pub(crate) fn take_back(&mut self)
        ensures { (e : Envelope) (before : HandState) → self.old ≡ asking e before → self.new ≡ before }
    {
        if self.link.is_some() {
            drop(self.out.pop());
        }
    }

    /// The request that opens the stream, or resumes the one that is held.
    pub(crate) fn greeting(&self, alloc: Global, root: &Root) -> Result<Envelope, AllocError>
        ensures { IfOk result (λ e. e ≡ greeting_request root.now self.now) }
    {
        let asked = match self.stream {
            Some(stream) => StreamRequest::Resume {
                stream,
                token: self.token,
            },
            None => StreamRequest::Open,
        };
        Ok(Envelope {
            id: None,
            request: Request::Write {
                database: root.copy(alloc)?,
                asked,
            },
        })
    }

    /// A new link, on which this is to be sent. It takes no memory.
    pub(crate) fn connect(&mut self, out: Vec<Envelope>)
        ensures { self.new ≡ record self.old { link = Some (record { greeted = false; raised = false }); out = out.items } }
    {
        self.link = Some(Link {
            greeted: false,
            raised: false,
        });
        self.out = out;
    }

    /// The link is lost. It takes no memory.
    pub(crate) fn cut(&mut self)
        ensures { self.new ≡ cut_off self.old }
    {
        self.link = None;
        self.out.clear();
    }

    /// A batch is to be sent behind all else.
    pub(crate) fn push(&mut self, e: Envelope) -> Result<(), AllocError>
        ensures ok { OnOk result (self.new ≡ record self.old { out = self.old.out ++ e ∷ [] }) }
        ensures err { OnErr result (self.new ≡ self.old) }
    {
        Ok(self.out.push(e)?)
    }

    /// What is to be sent. It takes no memory.
    pub(crate) fn take(&mut self) -> Vec<Envelope>
        ensures value { result.items ≡ self.old.out }
        ensures rest { self.new ≡ record self.old { out = [] } }
    {
        mem::replace(&mut self.out, Vec::new(self.alloc))
    }

    /// The stream's request was answered. It takes no memory.
    pub(crate) fn greet(&mut self)
        ensures { self.new ≡ record self.old { link = greeted_link self.old.link } }
    {
        if let Some(link) = self.link {
            self.link = Some(Link {
                greeted: true,
                ..link
            });
        }
    }

    /// A snapshot was taken. It takes no memory.
    pub(crate) fn raise(&mut self)
        ensures { self.new ≡ record self.old { link = raised_link self.old.link } }
    {
        if let Some(link) = self.link {
            self.link = Some(Link {
                raised: true,
                ..link
            });
        }
    }

    /// A stream was opened. It takes no memory.
    pub(crate) fn open(&mut self, stream: u64, token: u64)
        ensures { self.new ≡ opened_in self.old.stream stream token self.old }
    {
        if self.stream.is_none() {
            self.stream = Some(stream);
            self.token = token;
        }
    }

    /// Whether this is the token of a response that the client doesn't have yet.
    pub(crate) fn counts(&self, token: u64) -> bool
        ensures { result ≡ (token == suc self.now.token) }
    {
        self.token.checked_add(1) == Some(token)
    }

    /// One batch more is finished. It takes no memory.
    pub(crate) fn count(&mut self)
        requires { suc self.old.token < 2 ^ 64 }
        ensures { self.new ≡ record self.old { token = suc self.old.token } }
    {
        self.token += 1;
    }
}
