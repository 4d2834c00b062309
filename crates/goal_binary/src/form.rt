//! The form of an operation, given by its first two bytes in version 1, and by its first byte in version 2.
ghost use Rattle.std.specs.Prelude.{◌≡◌};
ghost use Rattle.goal_binary.specs.Reading.{most_flags, form_of, form_at, used_unless, most_nic, most_peer, most_tag, most_size, has_peer, has_tag, unless_any, kind_of, is_head, head_of, head_byte_at, head_at};

use crate::fault::FileFault;
use crate::fields::{byte_at, byte_up_to, misfit};
use goal_graph::Kind;
use goal_limits::{MAX_BYTES, MAX_NANOS};

/// The kind of an operation, without its numbers.
#[derive(Clone, Copy)]
pub enum OpForm {
    /// A calc.
    Calc,
    /// A send.
    Send,
    /// A receive, from any source or not, and with any tag or not.
    Recv { any_source: bool, any_tag: bool },
}

/// Returns the greatest flags of an operation of this kind.
fn most_flags(kind: u8) -> u8
    ensures { result ≡ most_flags kind }
{
    match kind {
        0 | 1 => 0,
        _ => 3,
    }
}

/// Returns the form of a kind with its flags.
fn form_of(kind: u8, flags: u8) -> OpForm
    ensures { result ≡ form_of kind flags }
{
    match kind {
        0 => OpForm::Calc,
        1 => OpForm::Send,
        _ => OpForm::Recv {
            any_source: flags % 2 == 1,
            any_tag: flags >= 2,
        },
    }
}

/// Returns the greatest value of a field that must be 0 if any number will do.
fn used_unless(any: bool) -> u32
    ensures { result ≡ used_unless any }
{
    if any { 0 } else { u32::MAX }
}

/// Returns the number, or `None` if any number will do.
fn unless_any(any: bool, number: u32) -> Option<u32>
    ensures { result ≡ unless_any any number }
{
    if any { None } else { Some(number) }
}

impl OpForm {
    /// Returns the greatest NIC.
    pub fn most_nic(self) -> u8
        ensures { result ≡ most_nic self }
    {
        match self {
            OpForm::Calc => 0,
            OpForm::Send | OpForm::Recv { .. } => 255,
        }
    }

    /// Returns the greatest target or source.
    pub fn most_peer(self) -> u32
        ensures { result ≡ most_peer self }
    {
        match self {
            OpForm::Calc => 0,
            OpForm::Send => u32::MAX,
            OpForm::Recv { any_source, .. } => used_unless(any_source),
        }
    }

    /// Returns the greatest tag.
    pub fn most_tag(self) -> u32
        ensures { result ≡ most_tag self }
    {
        match self {
            OpForm::Calc => 0,
            OpForm::Send => u32::MAX,
            OpForm::Recv { any_tag, .. } => used_unless(any_tag),
        }
    }

    /// Returns whether it has a target or a source.
    pub fn has_peer(self) -> bool
        ensures { result ≡ has_peer self }
    {
        match self {
            OpForm::Calc => false,
            OpForm::Send => true,
            OpForm::Recv { any_source, .. } => !any_source,
        }
    }

    /// Returns whether it has a tag.
    pub fn has_tag(self) -> bool
        ensures { result ≡ has_tag self }
    {
        match self {
            OpForm::Calc => false,
            OpForm::Send => true,
            OpForm::Recv { any_tag, .. } => !any_tag,
        }
    }

    /// Returns the greatest number of nanoseconds or bytes.
    pub fn most_size(self) -> u64
        ensures { result ≡ most_size self }
    {
        match self {
            OpForm::Calc => MAX_NANOS,
            OpForm::Send | OpForm::Recv { .. } => MAX_BYTES,
        }
    }

    /// Returns the kind of an operation with these numbers.
    pub fn kind(self, peer: u32, tag: u32, size: u64) -> Kind
        ensures { result ≡ kind_of self peer tag size }
    {
        match self {
            OpForm::Calc => Kind::Calc { nanos: size },
            OpForm::Send => Kind::Send {
                bytes: size,
                to: peer,
                tag,
            },
            OpForm::Recv {
                any_source,
                any_tag,
            } => Kind::Recv {
                bytes: size,
                from: unless_any(any_source, peer),
                tag: unless_any(any_tag, tag),
            },
        }
    }
}

/// Reads the kind and the flags of the operation at this place.
#[tactic(auto, unfolding(crate::specs::Reading::form_at))]
pub fn form_at(bytes: &[u8], at: usize) -> Result<(OpForm, usize), FileFault>
    ensures { result ≡ form_at bytes.now at }
{
    let (kind, flags_at) = byte_up_to(bytes, 2, at)?;
    let (flags, after) = byte_up_to(bytes, most_flags(kind), flags_at)?;
    Ok((form_of(kind, flags), after))
}

/// The first byte of an operation in version 2.
#[derive(Clone, Copy)]
pub struct Head {
    /// The form of the operation.
    pub form: OpForm,
    /// Whether a byte for the cpu follows; otherwise the cpu is 0.
    pub has_cpu: bool,
    /// Whether a byte for the NIC follows; otherwise the NIC is 0.
    pub has_nic: bool,
}

/// Returns whether an operation can begin with this byte: its kind and its flags are valid, and a calc has no NIC.
fn is_head(head: u8) -> bool
    ensures { result ≡ is_head head }
{
    let kind = head % 4;
    head < 64 && kind <= 2 && head / 4 % 4 <= most_flags(kind) && (head < 32 || 0 < kind)
}

/// Returns the parts of this byte.
fn head_of(head: u8) -> Head
    ensures { result ≡ head_of head }
{
    Head {
        form: form_of(head % 4, head / 4 % 4),
        has_cpu: head / 16 % 2 == 1,
        has_nic: head >= 32,
    }
}

/// Reads the first byte of the operation at this place.
#[tactic(auto, unfolding(crate::specs::Reading::head_byte_at))]
fn head_byte_at(bytes: &[u8], at: usize) -> Result<(u8, usize), FileFault>
    ensures { result ≡ head_byte_at bytes.now at }
{
    let (head, after) = byte_at(bytes, at)?;
    if !is_head(head) {
        return Err(misfit(at));
    }
    Ok((head, after))
}

/// Reads the first byte of the operation at this place, and returns its parts.
#[tactic(auto, unfolding(crate::specs::Reading::head_at))]
pub fn head_at(bytes: &[u8], at: usize) -> Result<(Head, usize), FileFault>
    ensures { result ≡ head_at bytes.now at }
{
    let (head, after) = head_byte_at(bytes, at)?;
    Ok((head_of(head), after))
}
