//! Which server is asked for which shard.

ghost use Rattle.std.specs.Prelude.{◌≡◌, ◌+◌, ◌<◌, ◌≤◌, ℕ, ◌∷◌, [], ◌++◌, length, IfOk, IfErr, IfSome};
ghost use Rattle.std.specs.Prelude.{OnOk, IsTrue, List, ◌==◌, if◌then◌else◌};
ghost use Rattle.std.specs.List.{list_any};
ghost use Rattle.shard_core.specs.declared.unequal.Unequal.{Unequal as UnequalShard};
ghost use Rattle.shard_core.specs.Directories.{unequal_numbers};
ghost use Rattle.shard_core.specs.Choices.{is_lacked, is_unequal, has_shard, differs, told, holders, asked_at, chosen};
ghost use Rattle.shard_core.specs.Choices.{found_list, AreBelow, HaveOne, IsUnheld, IsUnchosen};
ghost use Rattle.shard_core.specs.declared.choice.ChoiceFault.TheVariants as faults;

use crate::unequal::Unequal;
use std::alloc::{AllocError, AllocFailed, Global};

/// A shard that differs, and which of the servers is asked for it.
#[derive(Clone, Copy, Debug, PartialEq, Eq)]
pub struct Asked {
    /// The place of the server among all.
    pub server: usize,
    /// The shard's number.
    pub shard: u16,
}

/// Why no shard is asked for.
#[derive(Clone, Copy, Debug, PartialEq, Eq)]
pub enum ChoiceFault {
    /// No server has this shard.
    NoServer {
        /// The shard's number.
        shard: u16,
    },
    /// Two servers have this shard.
    TwoServers {
        /// The shard's number.
        shard: u16,
    },
    /// Memory ran out.
    Memory,
}

impl From<AllocError> for ChoiceFault {
    ghost from_gives = { λ _ e. e ≡ faults.Memory };

    fn from(_refused: AllocError) -> ChoiceFault {
        ChoiceFault::Memory
    }
}

impl<T: Drop> From<AllocFailed<T>> for ChoiceFault {
    ghost from_gives = { λ _ e. e ≡ faults.Memory };

    fn from(_refused: AllocFailed<T>) -> ChoiceFault {
        ChoiceFault::Memory
    }
}

/// Whether this is told of the shard, and the server has no entry of it.
fn is_lacked(unequal: &Unequal, shard: u16) -> bool
    ensures { result ≡ is_lacked shard unequal.now }
{
    unequal.number == shard && unequal.theirs.is_none()
}

/// Whether this is told of the shard, and the server has another entry of it.
fn is_unequal(unequal: &Unequal, shard: u16) -> bool
    ensures { result ≡ is_unequal shard unequal.now }
{
    unequal.number == shard && unequal.theirs.is_some()
}

/// Whether a server lacks this shard.
fn lacks_shard(unequal: &[Unequal], shard: u16) -> bool
    ensures { result ≡ list_any (is_lacked shard) unequal.now }
{
    unequal.iter().any(|one| is_lacked(one, shard))
}

/// Whether a server has this shard.
fn has_shard(unequal: &[Unequal], shard: u16) -> bool
    ensures { result ≡ has_shard unequal.now shard }
{
    !lacks_shard(unequal, shard)
}

/// Whether its entry of this shard is another one than ours.
fn differs(unequal: &[Unequal], shard: u16) -> bool
    ensures { result ≡ differs unequal.now shard }
{
    unequal.iter().any(|one| is_unequal(one, shard))
}

/// The server that was found, after one more was asked whether it has the shard. Fails if there are two.
fn found_more(
    found: Option<usize>,
    server: usize,
    has_it: bool,
    shard: u16,
) -> Result<Option<usize>, ChoiceFault>
    ensures one { IfOk result (λ f. found_list f ≡ found_list found ++ (if has_it then server ∷ [] else [])) }
    ensures place { (n : ℕ) → server < n → IfSome found (λ j. j < n) → IfOk result (λ f. IfSome f (λ j. j < n)) }
    ensures two { IfErr result (λ e. (e ≡ ChoiceFault.TwoServers shard)
        × (length (found_list found ++ (if has_it then server ∷ [] else [])) ≡ 2)) }
{
    if !has_it {
        return Ok(found);
    }
    if found.is_some() {
        return Err(ChoiceFault::TwoServers { shard });
    }
    Ok(Some(server))
}

/// The one server that has this shard.
fn holder(directories: &[Vec<Unequal>], shard: u16) -> Result<usize, ChoiceFault>
    ensures one { IfOk result (λ j. holders (told directories.now) shard ≡ j ∷ []) }
    ensures within { IfOk result (λ j. j < length directories.now) }
    ensures none { IfErr result (λ e. IsUnheld (told directories.now) shard e) }
{
    let mut found = None;
    for server in 0..directories.len() {
        let has_it = has_shard(&directories[server], shard);
        found = found_more(found, server, has_it, shard)?;
    }
    match found {
        Some(server) => Ok(server),
        None => Err(ChoiceFault::NoServer { shard }),
    }
}

/// Appends a shard, if it differs.
fn push_where(asked: &mut Vec<Asked>, is_asked: bool, one: Asked) -> Result<(), AllocError>
    ensures { OnOk result (asked.new.items ≡ asked.old.items ++ (if is_asked then one ∷ [] else [])) }
{
    if is_asked {
        asked.push(one)?;
    }
    Ok(())
}

/// Appends who is asked for a shard, if it differs. Fails where there is no server that has it, or there are two.
fn ask_more(
    asked: &mut Vec<Asked>,
    directories: &[Vec<Unequal>],
    shard: u16,
) -> Result<(), ChoiceFault>
    ensures asked { OnOk result (asked.new.items ≡ asked.old.items ++ asked_at (told directories.now) shard) }
    ensures one { OnOk result ((j : ℕ) × (holders (told directories.now) shard ≡ j ∷ [])) }
    ensures within { AreBelow (length directories.now) asked.old.items →
        OnOk result (AreBelow (length directories.now) asked.new.items) }
    ensures none { IfErr result (λ e. IsUnheld (told directories.now) shard e) }
{
    let server = holder(directories, shard)?;
    let is_asked = differs(&directories[server], shard);
    push_where(asked, is_asked, Asked { server, shard })?;
    Ok(())
}

/// Which server is asked for which of the shards from `first` to `last`, rising: each that differs once, of the one
/// server that has it. Fails with the first of these shards that no server has, or that two have; that it does not
/// differ helps nothing.
///
/// Of each server it is handed the shards whose entries in its directory and in ours, which are those of these shards,
/// are not the same.
pub fn asked_of(
    alloc: Global,
    directories: &[Vec<Unequal>],
    first: u16,
    last: u16,
) -> Result<Vec<Asked>, ChoiceFault>
    requires { (first ≤ last) × (last < 4096) }
    ensures asked { IfOk result (λ v. v.items ≡ chosen (told directories.now) first last) }
    ensures one { OnOk result (HaveOne (told directories.now) first (last + 1)) }
    ensures within { IfOk result (λ v. AreBelow (length directories.now) v.items) }
    // Of one server alone each of these shards of which its directory tells is asked for.
    ensures covers { IfOk result (λ v. (us : List UnequalShard) → told directories.now ≡ us ∷ [] →
        (s : ℕ) → first ≤ s → s ≤ last → IsTrue (list_any (λ n. s == n) (unequal_numbers us)) →
        IsTrue (list_any (λ a. s == a.shard) v.items)) }
    ensures none { IfErr result (λ e. IsUnchosen (told directories.now) first last e) }
{
    let mut asked = Vec::new(alloc);
    for shard in first..last + 1 {
        ask_more(&mut asked, directories, shard)?;
    }
    Ok(asked)
}
