//! The reply to the parts of a message that has not ended.

ghost use Rattle.std.specs.Prelude.{◌≡◌, ◌≢◌, [], true, false, None, Some, IfSome, OnOk, OnErr};
ghost use Rattle.definitions.specs.Taking.{grown};
ghost use Rattle.ends_core.specs.Sizes as sizes;

use crate::size::with_parts;
use digest_core::WireSummary;
use std::alloc::{AllocError, Global};
use std::marker::Model;
use wire_core::{MAX_PARTS, Message, Part};

/// The reply to the parts of a message that has not ended, as long as it may be sent, and what is counted for it.
#[derive(Debug, Drop)]
pub(crate) struct Reply<F: WireSummary> {
    // It has too many parts, and is kept no further.
    overlong: bool,
    parts: Vec<Part<F>>,
    size: u64,
}

impl<F: WireSummary> Model for Reply<F> {
    ghost use Rattle.std.specs.Prelude.{◌≡◌, ◌≤◌, length, Option};
    ghost use Rattle.definitions.specs.Messages.{Message};
    ghost use Rattle.definitions.specs.Wire.{max_parts};
    ghost use Rattle.ends_core.specs.Drafts.{reply_kept};
    ghost use Rattle.ends_core.specs.Sizes.{reply_size};

    ghost Value = { Option (Message F) };

    ghost view = { λ a. reply_kept a.overlong a.parts.items };

    ghost invariant = { λ a. (length a.parts.items ≤ max_parts)
        × (a.size ≡ reply_size (reply_kept a.overlong a.parts.items)) };
}

impl<F: WireSummary> Reply<F> {
    /// To no part.
    pub(crate) fn nothing(alloc: Global) -> Reply<F>
        ensures { result ≡ Some [] }
    {
        Reply {
            overlong: false,
            parts: Vec::new(alloc),
            size: 0,
        }
    }

    /// Goes on, as long as it may be sent. Unchanged where memory runs out.
    pub(crate) fn grow(&mut self, alloc: Global, more: Vec<Part<F>>) -> Result<(), AllocError>
        ensures ok { OnOk result (self.new ≡ grown self.old more.items) }
        ensures err { OnErr result (self.new ≡ self.old) }
    {
        let mut more = more;
        if self.overlong {
            return Ok(());
        }
        if more.len() > MAX_PARTS - self.parts.len() {
            self.overlong = true;
            self.parts = Vec::new(alloc);
            self.size = 0;
            return Ok(());
        }
        let size = with_parts(self.size, &more);
        self.parts.append(&mut more)?;
        self.size = size;
        Ok(())
    }

    /// How many bytes of memory are counted for it.
    pub(crate) fn size(&self) -> u64
        ensures { result ≡ sizes.reply_size self.now }
    {
        self.size
    }

    /// Its parts, unless there are too many.
    pub(crate) fn parts(&self) -> Option<&[Part<F>]>
        ensures some { IfSome result (λ parts. self.now ≡ Some parts.now) }
        ensures none { result ≡ None → self.now ≡ None }
    {
        if self.overlong {
            return None;
        }
        Some(&self.parts)
    }

    /// The message of its parts.
    pub(crate) fn into_message(self) -> Message<F>
        requires { self ≢ None }
        ensures { self ≡ Some result }
    {
        match Message::new(self.parts) {
            Ok(message) => message,
            Err(_) => unreachable!(),
        }
    }
}
