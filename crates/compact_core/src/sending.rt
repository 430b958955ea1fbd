ghost use Rattle.std.specs.Prelude.{◌≡◌, ◌++◌, [], Some, length, take, OnOk, OnErr};
ghost use Rattle.compact_core.specs.Sendings.{after_said, packer_after, sent, sending_after, is_plain};

use crate::hello::{Hello, parted};
use crate::packer::Packer;
use digest_core::{Fingerprint, WireSummary};
use std::alloc::{AllocError, Global};
use std::marker::Model;

/// What a session says, and what is sent of it: the hello as it is, after the compact one compact text, and after
/// another one all that follows as it is.
#[derive(Debug, Drop)]
pub struct Sending<F: WireSummary = Fingerprint> {
    hello: Hello,
    packer: Packer<F>,
}

impl<F: WireSummary> Model for Sending<F> {
    ghost use Rattle.compact_core.specs.Sendings.{SendingState};

    ghost Value = { SendingState };

    ghost view = { λ a. record { hello = a.hello; packer = a.packer } };
}

/// Appends what is sent after a hello, which may not have come whole yet.
fn push_after<F: WireSummary>(
    alloc: Global,
    hello: &Hello,
    packer: &mut Packer<F>,
    rest: &[u8],
    out: &mut Vec<u8>,
) -> Result<(), AllocError>
    ensures text { OnOk result (out.new.items ≡ out.old.items ++ after_said F.profile hello.now packer.old rest.now) }
    ensures state { OnOk result (packer.new ≡ packer_after F.profile hello.now packer.old rest.now) }
    ensures memory { OnErr result ((packer.new ≡ packer.old) × (out.new.items ≡ out.old.items)) }
{
    if hello.is_of::<F>() {
        return packer.push(alloc, rest, out);
    }
    out.extend_from_slice(rest)?;
    Ok(())
}

/// Appends bytes of the hello, and what is sent after it.
fn push_both<F: WireSummary>(
    alloc: Global,
    hello: &Hello,
    packer: &mut Packer<F>,
    front: &[u8],
    rest: &[u8],
    out: &mut Vec<u8>,
) -> Result<(), AllocError>
    ensures text { OnOk result (out.new.items
        ≡ out.old.items ++ (front.now ++ after_said F.profile hello.now packer.old rest.now)) }
    ensures state { OnOk result (packer.new ≡ packer_after F.profile hello.now packer.old rest.now) }
    ensures memory { OnErr result ((packer.new ≡ packer.old)
        × (take (length out.old.items) out.new.items ≡ out.old.items)) }
{
    out.extend_from_slice(front)?;
    push_after(alloc, hello, packer, rest, out)
}

impl<F: WireSummary> Sending<F> {
    /// Nothing was said.
    pub fn new(alloc: Global) -> Sending<F>
        ensures { result ≡ record { hello = []; packer = record { to = Some []; kept = [] } } }
    {
        Sending {
            hello: Hello::new(),
            packer: Packer::new(alloc),
        }
    }

    /// Whether another hello was said: all that follows is sent as it is.
    pub fn is_plain(&self) -> bool
        ensures { result ≡ is_plain F.profile self.now }
    {
        self.hello.is_other::<F>()
    }

    /// Appends what is sent of the piece. Where memory runs out, all is as before the call.
    pub fn push(&mut self, alloc: Global, piece: &[u8], out: &mut Vec<u8>) -> Result<(), AllocError>
        ensures text { OnOk result (out.new.items ≡ out.old.items ++ sent F.profile self.old piece.now) }
        ensures state { OnOk result (self.new ≡ sending_after F.profile self.old piece.now) }
        ensures memory { OnErr result ((self.new ≡ self.old) × (out.new.items ≡ out.old.items)) }
    {
        let known = self.hello.known();
        let written = out.len();
        let (front, rest) = parted(self.hello.due(), piece);
        self.hello.hear(front);
        match push_both(alloc, &self.hello, &mut self.packer, front, rest, out) {
            Ok(()) => Ok(()),
            Err(refused) => {
                self.hello.forget_to(known);
                out.truncate(written);
                Err(refused)
            }
        }
    }
}
