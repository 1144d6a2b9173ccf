ghost use Rattle.pe_write.specs.Metadata.{WritesMetadata};

use crate::fail::{MAX_LENGTH, PeWriteFail};
use crate::metadata::{StreamBytes, lay_metadata, metadata_length, sizes_of};
use cil_base::{Bytes, NoMemory};
use std::alloc::Global;

/// The metadata with this version text, which has no zero byte, and these five streams (ECMA-335 II.24.2.1, II.24.2.2). Refused
/// exactly where it would pass 2^26 bytes.
#[tactic(auto, using(crate::proofs::MetadataLemmas::sized_is, crate::proofs::MetadataLemmas::length_is))]
pub fn write_metadata(
    alloc: Global,
    version: &[u8],
    streams: &StreamBytes,
) -> Result<Bytes, PeWriteFail>
    ensures { WritesMetadata version.now streams.now result }
{
    let length = metadata_length(version, streams);
    if length > u128::from(MAX_LENGTH) {
        let length = u64::try_from(length).map_err(|_| NoMemory)?;
        return Err(PeWriteFail::TooLarge(length));
    }
    let sizes = sizes_of(version, streams);
    let bytes = lay_metadata(
        alloc,
        &sizes,
        version,
        streams.tables.as_slice(),
        streams.strings.as_slice(),
        streams.users.as_slice(),
        streams.guids.as_slice(),
        streams.blobs.as_slice(),
    )?;
    Ok(bytes)
}
