use cil_base::Bytes;

/// What the section has behind its CLI header.
#[derive(Debug, Drop)]
pub struct Contents {
    /// The bytes behind the CLI header, from RVA 0x2048 on: method bodies, data, resources.
    pub body: Bytes,
    /// The RVA from which the offsets of resources count; 0 where there are none (ECMA-335 II.25.3.3).
    pub resources_rva: u32,
    /// The bytes from there to the end of the last resource.
    pub resources_size: u32,
    /// The metadata, which follows at a multiple of 4.
    pub metadata: Bytes,
}
