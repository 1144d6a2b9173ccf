ghost use Rattle.md_schema.specs.Layout.{OpensTables};
ghost use Rattle.node_read.specs.inner.Indexed.{IndexesAny};

use md_tables::{LinkIndex, Tables};

/// The streams of an image, with the tables that were opened from the first of them and the index of their links, where
/// one was made.
#[derive(Clone, Copy)]
pub(crate) struct Streams<'a> {
    /// The header of `#~`.
    pub head: &'a Tables,
    /// The index of the links of `#~`, where there is one.
    pub links: &'a Option<LinkIndex>,
    /// `#~`.
    pub tables: &'a [u8],
    /// `#Strings`.
    pub strings: &'a [u8],
    /// `#US`.
    pub users: &'a [u8],
    /// `#GUID`.
    pub guids: &'a [u8],
    /// `#Blob`.
    pub blobs: &'a [u8],
    ghost opened: { OpensTables tables.now head.now },
    ghost indexed: { IndexesAny tables.now links.now },
}
