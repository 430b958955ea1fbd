//! All peers at once, within limits of number, memory and time.

ghost use Rattle.std.specs.Prelude.{◌≡◌, ◌<◌, ◌≤◌, ◌↔◌, ◌-◌, ◌^◌, ◌||◌, nat_lt, ℕ, true, false, [], Some, None};
ghost use Rattle.std.specs.Prelude.{IfOk, IfErr, OnOk, OnErr, IfSome, IfNone, IsSome, length, option_copied};
ghost use Rattle.std.specs.Arc.{arc_value};
ghost use Rattle.std.specs.Io.Take.{take_inner, take_remaining};
ghost use Rattle.slab.specs.Slab.{get, slab_len};
ghost use Rattle.ends_core.specs.Sides.{peer_of};
ghost use Rattle.range_tree.specs.Trees.{tree_items};
ghost use Rattle.hub_core.specs.Hubs as hubs;
ghost use Rattle.hub_core.specs.Hubs.{OthersStay, held_by, silence};
ghost use Rattle.hub_core.specs.Totals.{IsMost, IsMostOf};
ghost use Rattle.hub_core.specs.Peers.{CountsSo, EndsPhase, GoesSo, LeavesOff, Opens, is_from, kept, version_after};

use crate::best::{Measure, better};
use crate::keeping::Keeping;
use crate::limits::HubLimits;
use crate::peer::Peer;
use range_tree::Tree;
use session_core::{LinkFault, Pumped};
use slab::Slab;
use std::alloc::{AllocError, Global};
use std::io::{Read, Write};
use std::marker::Model;
use std::sync::Arc;
use strategy_check::Accepted;

/// All peers at once, each at a key of its own.
#[derive(Drop)]
pub struct Hub<I, O> {
    peers: Slab<Peer<I, O>>,
    limits: HubLimits,
    // What is counted for all of them.
    held: u128,
}

impl<I, O> Model for Hub<I, O> {
    ghost use Rattle.std.specs.Prelude.{◌≡◌};
    ghost use Rattle.hub_core.specs.Hubs.{HubState, held_by};

    ghost Value = { HubState I O };

    ghost view = { λ h. record { peers = h.peers; limits = h.limits } };

    ghost invariant = { λ h. h.held ≡ held_by h.peers };
}

/// Whether the time of a peer is over that was heard and came then.
fn is_late(limits: &HubLimits, now: u64, heard: u64, arrived: u64) -> bool
    ensures { result ≡ (nat_lt limits.now.patience (now - heard) || nat_lt limits.now.session (now - arrived)) }
{
    now.saturating_sub(heard) > limits.patience || now.saturating_sub(arrived) > limits.session
}

/// How old the last byte of a peer is, as a number.
fn silence<I: Read + Keeping, O: Write>(peer: &Peer<I, O>) -> u128
    ensures value { result ≡ hubs.silence peer.now }
    ensures small { result < 2 ^ 64 }
{
    u128::from(u64::MAX - peer.heard())
}

/// The same of a peer of this origin, from 1 on, and 0 of any other.
fn silence_from<I: Read + Keeping, O: Write>(origin: u128, peer: &Peer<I, O>) -> u128
    ensures { result ≡ hubs.silence_from origin peer.now }
{
    if peer.is_from(origin) {
        return silence(peer) + 1;
    }
    0
}

/// The number of a peer by this measure.
fn measured<I: Read + Keeping, O: Write>(by: Measure, peer: &Peer<I, O>) -> u128
    ensures { result ≡ hubs.measured by peer.now }
{
    match by {
        Measure::Kept => u128::from(peer.kept()),
        Measure::Silence => silence(peer),
        Measure::SilenceOf(origin) => silence_from(origin, peer),
    }
}

impl<I: Read + Keeping, O: Write> Hub<I, O> {
    /// No peer yet.
    pub fn new(alloc: Global, limits: HubLimits) -> Hub<I, O>
        ensures none { result.peers.slots ≡ [] }
        ensures limits { result.limits ≡ limits }
    {
        Hub {
            peers: Slab::new(alloc),
            limits,
            held: 0,
        }
    }

    /// How many peers there are.
    pub fn len(&self) -> usize
        ensures { result ≡ slab_len self.now.peers }
    {
        self.peers.len()
    }

    /// The key of the next peer.
    pub fn next_key(&self) -> usize
        ensures { get self.now.peers result ≡ None }
    {
        self.peers.vacant_key()
    }

    /// What is counted for all peers.
    pub fn held(&self) -> u128
        ensures { result ≡ held_by self.now.peers }
    {
        self.held
    }

    /// The peer at this key.
    pub fn get(&self, key: usize) -> Option<&Peer<I, O>>
        ensures { option_copied result ≡ get self.now.peers key }
    {
        self.peers.get(key)
    }

    /// Takes in one more peer, at a key that none had. Where memory runs out the peer is given back.
    pub fn admit(&mut self, peer: Peer<I, O>) -> Result<usize, Peer<I, O>>
        ensures vacant { IfOk result (λ key. get self.old.peers key ≡ None) }
        ensures there { IfOk result (λ key. get self.new.peers key ≡ Some peer) }
        ensures others { IfOk result (λ key. OthersStay self.old.peers self.new.peers key) }
        ensures limits { self.new.limits ≡ self.old.limits }
        ensures memory { IfErr result (λ p. (p ≡ peer) × (self.new.peers.slots ≡ self.old.peers.slots)) }
    {
        let _ = self.peers.capacity(); // proof only: there are fewer than 2^64 keys
        let own = peer.kept();
        match self.peers.insert(peer) {
            Ok(key) => {
                self.held += u128::from(own);
                Ok(key)
            }
            Err(failed) => Err(failed.value),
        }
    }

    /// Takes the peer out of this key, if there is one. The others stay as they are.
    pub fn take(&mut self, key: usize) -> Option<Peer<I, O>>
        ensures value { result ≡ get self.old.peers key }
        ensures gone { get self.new.peers key ≡ None }
        ensures others { OthersStay self.old.peers self.new.peers key }
        ensures limits { self.new.limits ≡ self.old.limits }
    {
        let peer = self.peers.try_remove(key)?;
        self.held -= u128::from(peer.kept());
        Some(peer)
    }

    /// Goes on with the peer at this key, as far as its stream goes without waiting. Whatever it sends, the others stay
    /// as they are. No peer, no step.
    pub fn pump(
        &mut self,
        alloc: Global,
        key: usize,
        room: &mut [u8],
        now: u64,
    ) -> Option<Result<Pumped, LinkFault>>
        requires room { 0 < length room.old }
        ensures stays { IfSome result (λ did. (p q : _) → get self.old.peers key ≡ Some p →
            get self.new.peers key ≡ Some q → GoesSo p.phase q.phase (take_remaining I.remaining p.reader.way)
            (take_remaining I.remaining q.reader.way) (O.contents p.writer.way) (O.contents q.writer.way) did) }
        ensures leaves { IfSome result (λ did. (q : _) → get self.new.peers key ≡ Some q →
            LeavesOff q.phase q.reader.last q.writer.last did) }
        ensures over { IfSome result (λ did. (p q : _) → get self.old.peers key ≡ Some p →
            get self.new.peers key ≡ Some q → OnOk did (EndsPhase p.phase q.phase q.reader.last)) }
        ensures counts { IfSome result (λ did. (p q : _) → get self.old.peers key ≡ Some p →
            get self.new.peers key ≡ Some q → CountsSo p q now did) }
        ensures waits { IfSome result (λ did. (q : _) → get self.new.peers key ≡ Some q →
            q.waits ≡ I.keeps (take_inner q.reader.way)) }
        ensures there { IsSome (get self.new.peers key) ↔ IsSome (get self.old.peers key) }
        ensures others { OthersStay self.old.peers self.new.peers key }
        ensures limits { self.new.limits ≡ self.old.limits }
        ensures none { IfNone result (get self.old.peers key ≡ None) }
        ensures room { length room.new ≡ length room.old }
    {
        let _ = self.peers.capacity(); // proof only: there are fewer than 2^64 keys
        let peer = self.peers.get_mut(key)?;
        let before = peer.kept();
        let did = peer.pump(alloc, room, now);
        let kept = peer.kept();
        self.held = self.held - u128::from(before) + u128::from(kept);
        Some(did)
    }

    /// Opens the session of the peer at this key over this version of the set. The others stay as they are.
    pub fn open(
        &mut self,
        alloc: Global,
        key: usize,
        accepted: &Arc<Accepted>,
        store: Tree,
        version: usize,
    ) -> Option<Result<(), AllocError>>
        requires { length (tree_items store) ≤ (arc_value accepted.now).table.cap }
        ensures opens { IfSome result (λ did. OnOk did ((p q : _) → get self.old.peers key ≡ Some p →
            get self.new.peers key ≡ Some q →
            Opens (peer_of (arc_value accepted.now) (tree_items store)) p.phase q.phase)) }
        ensures version { IfSome result (λ did. OnOk did ((p q : _) → get self.old.peers key ≡ Some p →
            get self.new.peers key ≡ Some q → q.version ≡ version_after p.phase p.version version)) }
        ensures memory { IfSome result (λ did. OnErr did (get self.new.peers key ≡ get self.old.peers key)) }
        ensures there { IsSome (get self.new.peers key) ↔ IsSome (get self.old.peers key) }
        ensures others { OthersStay self.old.peers self.new.peers key }
        ensures limits { self.new.limits ≡ self.old.limits }
        ensures none { IfNone result (get self.old.peers key ≡ None) }
    {
        let _ = self.peers.capacity(); // proof only: there are fewer than 2^64 keys
        let peer = self.peers.get_mut(key)?;
        let before = peer.kept();
        let did = peer.open(alloc, accepted, store, version);
        let after = peer.kept();
        self.held = self.held - u128::from(before) + u128::from(after);
        Some(did)
    }

    /// The peer that is the most by this measure.
    fn greatest(&self, by: Measure) -> Option<usize>
        ensures most { IfSome result (λ key. IsMost (hubs.measured by) self.now.peers key) }
        ensures none { IfNone result ((key : ℕ) → get self.now.peers key ≡ None) }
    {
        let mut best = None;
        for (key, peer) in self.peers.iter() {
            best = better(best, key, measured(by, peer));
        }
        let (key, _) = best?;
        Some(key)
    }

    /// The peer of which most is kept.
    pub fn greediest(&self) -> Option<usize>
        ensures most { IfSome result (λ key. IsMost kept self.now.peers key) }
        ensures none { IfNone result ((key : ℕ) → get self.now.peers key ≡ None) }
    {
        self.greatest(Measure::Kept)
    }

    /// The peer that has been silent for longest.
    pub fn most_silent(&self) -> Option<usize>
        ensures most { IfSome result (λ key. IsMost silence self.now.peers key) }
        ensures none { IfNone result ((key : ℕ) → get self.now.peers key ≡ None) }
    {
        self.greatest(Measure::Silence)
    }

    /// The peer of this origin that has been silent for longest.
    pub fn most_silent_of(&self, origin: u128) -> Option<usize>
        ensures most { IfSome result (λ key. IsMostOf (is_from origin) silence self.now.peers key) }
        ensures none { IfNone result ((key : ℕ) (p : _) → get self.now.peers key ≡ Some p →
            is_from origin p ≡ false) }
    {
        let key = self.greatest(Measure::SilenceOf(origin))?;
        let peer = self.peers.get(key)?;
        if !peer.is_from(origin) {
            return None;
        }
        Some(key)
    }

    /// A peer whose time is over: it was silent for longer than it may be, or it has been there for longer.
    pub fn late(&self, now: u64) -> Option<usize>
        ensures late { IfSome result (λ key. (p : _) × (get self.now.peers key ≡ Some p)
            × (hubs.is_late self.now.limits now p ≡ true)) }
        ensures none { IfNone result ((key : ℕ) (p : _) → get self.now.peers key ≡ Some p →
            hubs.is_late self.now.limits now p ≡ false) }
    {
        for (key, peer) in self.peers.iter() {
            if is_late(&self.limits, now, peer.heard(), peer.arrived()) {
                return Some(key);
            }
        }
        None
    }

    /// The peer of which most is kept, where more is held than may be: it is to be taken out. Where it answers none, no
    /// more is held than may be.
    pub fn over_budget(&self) -> Option<usize>
        ensures within { IfNone result (held_by self.now.peers ≤ self.now.limits.memory) }
        ensures over { IfSome result (λ key. (self.now.limits.memory < held_by self.now.peers)
            × IsMost kept self.now.peers key) }
    {
        if self.held <= u128::from(self.limits.memory) {
            return None;
        }
        self.greediest()
    }
}
