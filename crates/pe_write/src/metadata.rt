ghost use Rattle.std.specs.Prelude.{◌≡◌, ◌≤◌, ◌+◌, ◌^◌, IfOk};
ghost use Rattle.laid_parts.specs.LaidParts.{padding};
ghost use Rattle.pe_write.specs.Metadata.{metadata_length};
ghost use Rattle.pe_write.specs.inner.Sizes.{AreSmall, sized_metadata, sizes_of};

use crate::field::Field::{Bytes as These, Four, Two, Zeros};
use crate::field::join_fields;
use crate::format::root;
use cil_base::{Bytes, NoMemory};
use std::alloc::Global;

/// The bytes of the five streams (ECMA-335 II.24.2.2). The length of each is to be a multiple of 4.
#[derive(Debug, Drop)]
pub struct StreamBytes {
    /// `#~`
    pub tables: Bytes,
    /// `#Strings`
    pub strings: Bytes,
    /// `#US`
    pub users: Bytes,
    /// `#GUID`
    pub guids: Bytes,
    /// `#Blob`
    pub blobs: Bytes,
}

/// What the root and the stream headers say of lengths: the bytes of the version text with the zeros behind it, these zeros, and
/// the bytes of each stream.
#[derive(Clone, Copy)]
pub(crate) struct Sizes {
    pub version: u32,
    pub zeros: u32,
    pub tables: u32,
    pub strings: u32,
    pub users: u32,
    pub guids: u32,
    pub blobs: u32,
}

/// The bytes of the version text with the zeros behind it: at least one, up to a multiple of 4.
fn version_size(length: u64) -> u128
    ensures { result ≡ length + (1 + padding 4 (length + 1)) }
{
    u128::from(length) + u128::from(4 - length % 4)
}

/// How many bytes the metadata has.
pub(crate) fn metadata_length(version: &[u8], streams: &StreamBytes) -> u128
    ensures { result ≡ metadata_length version.now streams.now }
{
    u128::from(root::SIZE)
        + version_size(version.len() as u64)
        + streams.tables.len() as u128
        + streams.strings.len() as u128
        + streams.users.len() as u128
        + streams.guids.len() as u128
        + streams.blobs.len() as u128
}

/// The lengths that the headers say.
pub(crate) fn sizes_of(version: &[u8], streams: &StreamBytes) -> Sizes
    requires { metadata_length version.now streams.now ≤ 2 ^ 26 }
    ensures value { result ≡ sizes_of version.now streams.now }
    ensures small { AreSmall result }
{
    let length = version.len() as u32;
    let zeros = 4 - length % 4;
    Sizes {
        version: length + zeros,
        zeros,
        tables: streams.tables.len() as u32,
        strings: streams.strings.len() as u32,
        users: streams.users.len() as u32,
        guids: streams.guids.len() as u32,
        blobs: streams.blobs.len() as u32,
    }
}

/// The metadata of these lengths.
#[tactic(auto, unfolding(crate::specs::inner::Sizes::sized_metadata))]
pub(crate) fn lay_metadata<'a>(
    alloc: Global,
    sizes: &Sizes,
    version: &'a [u8],
    tables: &'a [u8],
    strings: &'a [u8],
    users: &'a [u8],
    guids: &'a [u8],
    blobs: &'a [u8],
) -> Result<Bytes, NoMemory>
    requires { AreSmall sizes.now }
    ensures { IfOk result (λ bytes. bytes ≡ sized_metadata sizes.now version.now tables.now strings.now users.now guids.now blobs.now) }
{
    let tables_at = root::SIZE + sizes.version;
    let strings_at = tables_at + sizes.tables;
    let users_at = strings_at + sizes.strings;
    let guids_at = users_at + sizes.users;
    let blobs_at = guids_at + sizes.guids;
    join_fields(
        alloc,
        &[
            Four(root::SIGNATURE),
            Two(root::MAJOR_VERSION),
            Two(root::MINOR_VERSION),
            Zeros(root::RESERVED),
            Four(sizes.version),
            These(version),
            Zeros(sizes.zeros),
            Two(root::FLAGS),
            Two(root::STREAMS),
            Four(tables_at),
            Four(sizes.tables),
            These(&[0x23, 0x7e, 0, 0]),
            Four(strings_at),
            Four(sizes.strings),
            These(&[0x23, 0x53, 0x74, 0x72, 0x69, 0x6e, 0x67, 0x73, 0, 0, 0, 0]),
            Four(users_at),
            Four(sizes.users),
            These(&[0x23, 0x55, 0x53, 0]),
            Four(guids_at),
            Four(sizes.guids),
            These(&[0x23, 0x47, 0x55, 0x49, 0x44, 0, 0, 0]),
            Four(blobs_at),
            Four(sizes.blobs),
            These(&[0x23, 0x42, 0x6c, 0x6f, 0x62, 0, 0, 0]),
            These(tables),
            These(strings),
            These(users),
            These(guids),
            These(blobs),
        ],
    )
}
