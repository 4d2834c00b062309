//! The fields of a file. Each function returns the value at a place and the place after it, or the first fault.
ghost use Rattle.std.specs.Prelude.{◌≡◌, ℕ, ◌+◌, ◌<◌, ◌≤◌, length, slice_index, IfOk};
ghost use Rattle.goal_binary.specs.Fields.{byte_at, u32_at, u64_at, below, groups_at, packed_at, byte_up_to, u32_up_to, u64_up_to, packed_up_to, some_byte_at, number_at, count_at, magic_at, layout_at, opening_at, rank_count_at};

use crate::fault::FileFault;
use crate::layout::{Layout, MAGIC, layout_of};
use byteorder::{ByteOrder, LittleEndian};
use goal_limits::MAX_RANKS;

/// The fault of an input that ends inside a field.
fn short(bytes: &[u8]) -> FileFault
    ensures { result ≡ FileFault.Short (length bytes.now) }
{
    FileFault::Short {
        at: bytes.len() as u64,
    }
}

/// The fault of a value that no file can have at this place.
pub fn misfit(at: usize) -> FileFault
    ensures { result ≡ FileFault.Field at }
{
    FileFault::Field { at: at as u64 }
}

/// Reads one byte.
#[inline(always)]
#[tactic(auto, unfolding(crate::specs::Fields::byte_at))]
pub fn byte_at(bytes: &[u8], at: usize) -> Result<(u8, usize), FileFault>
    ensures { result ≡ byte_at bytes.now at }
{
    match bytes.get(at) {
        Some(byte) => Ok((*byte, at + 1)),
        None => Err(short(bytes)),
    }
}

/// Reads a number of four bytes, lowest first.
#[tactic(auto, using(crate::proofs::FixedNumbers::number_of_4_bytes), unfolding(crate::specs::Fields::u32_at))]
pub fn u32_at(bytes: &[u8], at: usize) -> Result<(u32, usize), FileFault>
    ensures { result ≡ u32_at bytes.now at }
{
    if bytes.len().saturating_sub(at) < 4 {
        return Err(short(bytes));
    }
    Ok((LittleEndian::read_u32(&bytes[at..]), at + 4))
}

/// Reads a number of eight bytes, lowest first.
#[tactic(auto, using(crate::proofs::FixedNumbers::number_of_8_bytes), unfolding(crate::specs::Fields::u64_at))]
pub fn u64_at(bytes: &[u8], at: usize) -> Result<(u64, usize), FileFault>
    ensures { result ≡ u64_at bytes.now at }
{
    if bytes.len().saturating_sub(at) < 8 {
        return Err(short(bytes));
    }
    Ok((LittleEndian::read_u64(&bytes[at..]), at + 8))
}

/// Joins a group of seven bits with `others`, the number that the groups above it give. The result is `None` if that
/// number is invalid, is 0 (fewer bytes would do), or makes the result exceed 64 bits.
fn below(group: u8, others: Option<u64>) -> Option<u64>
    requires { group < 128 }
    ensures { result ≡ below group others }
{
    match others {
        Some(others) if others > 0 && others < 1 << 57 => Some(u64::from(group) + 128 * others),
        _ => None,
    }
}

/// Reads the groups of a packed number, at most `left`. The field ends with the first group below 128, or after `left`
/// groups. They are joined from the last one to the first.
fn groups_at(bytes: &[u8], left: u32, at: usize) -> Result<(Option<u64>, usize), FileFault>
    ensures { result ≡ groups_at bytes.now left at }
{
    let more = groups_before_last(bytes, left, at);
    let last_at = at + more;
    let (mut groups, after) = if more == left as usize {
        (None, last_at)
    } else {
        let (last, after) = byte_at(bytes, last_at)?;
        (Some(u64::from(last)), after)
    };
    let mut place = last_at;
    while place > at {
        place -= 1;
        groups = below(bytes[place] - 128, groups);
    }
    Ok((groups, after))
}

/// Returns the number of bytes from this place that are at least 128, up to the first that is less, and at most `most`.
#[inline(always)]
fn groups_before_last(bytes: &[u8], most: u32, at: usize) -> usize
    ensures most { result ≤ most }
    ensures within { 0 < result → at + result ≤ length bytes.now }
    ensures each { (k : ℕ) → k < result → 128 ≤ slice_index bytes.now (at + k) }
    ensures ends { result < most → at + result < length bytes.now → slice_index bytes.now (at + result) < 128 }
{
    let mut count = 0;
    while count < most as usize && at + count < bytes.len() && bytes[at + count] >= 128 {
        count += 1;
    }
    count
}

/// Reads the groups after the first of a packed number: usually one.
#[inline(always)]
#[tactic(auto, unfolding(crate::specs::Fields::groups_at))]
fn groups_behind(bytes: &[u8], at: usize) -> Result<(Option<u64>, usize), FileFault>
    ensures { result ≡ groups_at bytes.now 9 at }
{
    let (group, others_at) = byte_at(bytes, at)?;
    if group < 128 {
        return Ok((Some(u64::from(group)), others_at));
    }
    let (others, after) = groups_at(bytes, 8, others_at)?;
    Ok((below(group - 128, others), after))
}

/// Reads a packed number. Most have one byte.
#[inline(always)]
#[tactic(auto, using(crate::proofs::Packed::packed_step))]
pub fn packed_at(bytes: &[u8], at: usize) -> Result<(u64, usize), FileFault>
    ensures { result ≡ packed_at bytes.now at }
{
    let (group, others_at) = byte_at(bytes, at)?;
    if group < 128 {
        return Ok((u64::from(group), others_at));
    }
    let (others, after) = groups_behind(bytes, others_at)?;
    match below(group - 128, others) {
        Some(number) => Ok((number, after)),
        None => Err(misfit(at)),
    }
}

/// Reads one byte, which must be at most `most`.
#[inline(always)]
#[tactic(auto, unfolding(crate::specs::Fields::byte_up_to))]
pub fn byte_up_to(bytes: &[u8], most: u8, at: usize) -> Result<(u8, usize), FileFault>
    ensures { result ≡ byte_up_to bytes.now most at }
{
    let (byte, after) = byte_at(bytes, at)?;
    if byte > most {
        return Err(misfit(at));
    }
    Ok((byte, after))
}

/// Reads a number of four bytes, which must be at most `most`.
#[tactic(auto, unfolding(crate::specs::Fields::u32_up_to))]
pub fn u32_up_to(bytes: &[u8], most: u32, at: usize) -> Result<(u32, usize), FileFault>
    ensures { result ≡ u32_up_to bytes.now most at }
{
    let (number, after) = u32_at(bytes, at)?;
    if number > most {
        return Err(misfit(at));
    }
    Ok((number, after))
}

/// Reads a number of eight bytes, which must be at most `most`.
#[tactic(auto, unfolding(crate::specs::Fields::u64_up_to))]
pub fn u64_up_to(bytes: &[u8], most: u64, at: usize) -> Result<(u64, usize), FileFault>
    ensures { result ≡ u64_up_to bytes.now most at }
{
    let (number, after) = u64_at(bytes, at)?;
    if number > most {
        return Err(misfit(at));
    }
    Ok((number, after))
}

/// Reads a packed number, which must be at most `most`.
#[inline(always)]
#[tactic(auto, unfolding(crate::specs::Fields::packed_up_to))]
pub fn packed_up_to(bytes: &[u8], most: u64, at: usize) -> Result<(u64, usize), FileFault>
    ensures number { result ≡ packed_up_to bytes.now most at }
    ensures within { IfOk result (λ x. x.0 ≤ most) }
{
    let (number, after) = packed_at(bytes, at)?;
    if number > most {
        return Err(misfit(at));
    }
    Ok((number, after))
}

/// Reads one byte, which must not be 0.
#[inline(always)]
#[tactic(auto, unfolding(crate::specs::Fields::some_byte_at))]
pub fn some_byte_at(bytes: &[u8], at: usize) -> Result<(u8, usize), FileFault>
    ensures { result ≡ some_byte_at bytes.now at }
{
    let (byte, after) = byte_at(bytes, at)?;
    if byte == 0 {
        return Err(misfit(at));
    }
    Ok((byte, after))
}

/// Reads a number in a layout.
#[inline(always)]
#[tactic(auto, unfolding(crate::specs::Fields::number_at))]
fn number_at(bytes: &[u8], layout: Layout, at: usize) -> Result<(u64, usize), FileFault>
    ensures { result ≡ number_at bytes.now layout at }
{
    match layout {
        Layout::Fixed => {
            let (number, after) = u32_at(bytes, at)?;
            Ok((u64::from(number), after))
        }
        Layout::Packed => packed_at(bytes, at),
    }
}

/// Reads a count that, added to the counts `before` of earlier ranks, is at most `limit`.
#[tactic(auto, unfolding(crate::specs::Fields::count_at))]
pub fn count_at(
    bytes: &[u8],
    layout: Layout,
    limit: u32,
    before: u32,
    at: usize,
) -> Result<(u32, usize), FileFault>
    ensures count { result ≡ count_at bytes.now layout limit before at }
    ensures within { IfOk result (λ x. before + x.0 ≤ limit) }
{
    let (number, after) = number_at(bytes, layout, at)?;
    let limit = u64::from(limit);
    if number > limit || u64::from(before) + number > limit {
        return Err(misfit(at));
    }
    Ok((number as u32, after))
}

/// Returns the place after the magic number.
#[tactic(auto, unfolding(crate::specs::Fields::magic_at))]
fn magic_at(bytes: &[u8]) -> Result<usize, FileFault>
    ensures { result ≡ magic_at bytes.now }
{
    if bytes.len() < 8 {
        return Err(short(bytes));
    }
    if bytes.starts_with(&MAGIC) {
        Ok(8)
    } else {
        Err(FileFault::Magic)
    }
}

/// Reads the version, and returns its layout.
#[tactic(auto, unfolding(crate::specs::Fields::layout_at))]
fn layout_at(bytes: &[u8], at: usize) -> Result<(Layout, usize), FileFault>
    ensures { result ≡ layout_at bytes.now at }
{
    let (found, after) = u32_at(bytes, at)?;
    match layout_of(found) {
        Some(layout) => Ok((layout, after)),
        None => Err(FileFault::Version { found }),
    }
}

/// Reads the magic number and the version, and returns the layout.
#[tactic(auto, unfolding(crate::specs::Fields::opening_at))]
pub fn opening_at(bytes: &[u8]) -> Result<(Layout, usize), FileFault>
    ensures { result ≡ opening_at bytes.now }
{
    let version_at = magic_at(bytes)?;
    layout_at(bytes, version_at)
}

/// Reads the number of ranks, at least one.
#[tactic(auto, unfolding(crate::specs::Fields::rank_count_at))]
pub fn rank_count_at(bytes: &[u8], layout: Layout, at: usize) -> Result<(u32, usize), FileFault>
    ensures { result ≡ rank_count_at bytes.now layout at }
{
    let (number, after) = number_at(bytes, layout, at)?;
    if number > u64::from(MAX_RANKS) || number == 0 {
        return Err(misfit(at));
    }
    Ok((number as u32, after))
}
