ghost use Rattle.std.specs.Prelude.{◌≡◌, ◌+◌, ◌*◌, ◌<◌, ◌^◌, [], ◌∷◌, IfOk, OnErr, OnOk, length};
ghost use Rattle.md_heaps.specs.LaidHeaps.{IsGuidNumber, IsText, blob_entry, text_entry, user_entry};
ghost use Rattle.md_heaps.specs.LaidHeaps.{first_entries, laid_heaps, with_blob, with_guid, with_text, with_user};
ghost use Rattle.md_heaps.specs.Pools.{EntriesStay, StandsAt};
ghost use Rattle.md_heaps.specs.ReadBack.{BlobsReadBack, GuidsReadBack, TextsReadBack, UsersReadBack};

use crate::content::{blob_entry, text_entry, user_entry};
use crate::pool::Pool;
use cil_base::{Bytes, List, NoMemory};
use std::alloc::Global;
use std::marker::Model;

/// Heaps while contents are put in: each distinct content has one index, given at its first use. Contracts see the entries
/// of each heap, as they stand in it, in the order of their first use.
#[derive(Drop)]
pub struct HeapBuilder {
    texts: Pool,
    users: Pool,
    guids: Pool,
    blobs: Pool,
}

impl Model for HeapBuilder {
    ghost use Rattle.md_heaps.specs.LaidHeaps.{HeapEntries};
    ghost use Rattle.md_heaps.specs.inner.PoolMap.{AreGuids, BeginsWithZero};

    ghost Value = { HeapEntries };

    ghost view = { λ b. record { texts = b.texts; users = b.users; guids = b.guids; blobs = b.blobs } };

    ghost invariant = { λ b. BeginsWithZero b.texts × AreGuids b.guids × BeginsWithZero b.blobs };
}

/// The bytes of the heaps, each padded with zeros to a multiple of 4.
#[derive(Drop)]
pub struct Heaps {
    /// #Strings
    pub strings: Bytes,
    /// #US
    pub users: Bytes,
    /// #GUID
    pub guids: Bytes,
    /// #Blob
    pub blobs: Bytes,
}

/// A pool whose first entry is a zero byte.
fn begun(alloc: Global) -> Result<Pool, NoMemory>
    ensures { IfOk result (λ pool. pool ≡ (0 ∷ []) ∷ []) }
{
    let mut pool = Pool::new(alloc);
    pool.add(List::from_slice(alloc, &[0])?)?;
    Ok(pool)
}

impl HeapBuilder {
    /// Heaps without contents: each but #GUID has the zero byte with which it begins (ECMA-335 II.24.2.3, II.24.2.4).
    pub fn new(alloc: Global) -> Result<HeapBuilder, NoMemory>
        ensures { IfOk result (λ builder. builder ≡ first_entries) }
    {
        let texts = begun(alloc)?;
        let users = begun(alloc)?;
        let blobs = begun(alloc)?;
        Ok(HeapBuilder {
            texts,
            users,
            guids: Pool::new(alloc),
            blobs,
        })
    }

    /// The index in #Strings of a text without a zero byte: the same whenever it is put in. `NoMemory` changes nothing
    /// (ECMA-335 II.24.2.3).
    #[tactic(auto, using(crate::proofs::ReadLemmas::begins_with))]
    pub fn text(&mut self, text: &[u8]) -> Result<u64, NoMemory>
        requires { IsText text.now }
        ensures ok { OnOk result (self.new ≡ with_text self.old text.now) }
        ensures index { IfOk result (StandsAt self.new.texts (text_entry text.now)) }
        ensures stays { OnOk result (EntriesStay self.old.texts self.new.texts) }
        ensures err { OnErr result (self.new ≡ self.old) }
    {
        let entry = text_entry(self.texts.allocator(), text)?;
        self.texts.add(entry)
    }

    /// The index in #Blob of a blob of fewer than 2^29 bytes: the same whenever it is put in. `NoMemory` changes nothing
    /// (ECMA-335 II.24.2.4).
    #[tactic(auto, using(crate::proofs::ReadLemmas::begins_with))]
    pub fn blob(&mut self, blob: &[u8]) -> Result<u64, NoMemory>
        requires { length blob.now < 2 ^ 29 }
        ensures ok { OnOk result (self.new ≡ with_blob self.old blob.now) }
        ensures index { IfOk result (StandsAt self.new.blobs (blob_entry blob.now)) }
        ensures stays { OnOk result (EntriesStay self.old.blobs self.new.blobs) }
        ensures err { OnErr result (self.new ≡ self.old) }
    {
        let entry = blob_entry(self.blobs.allocator(), blob)?;
        self.blobs.add(entry)
    }

    /// The number of a GUID in #GUID, counted from 1: the same whenever it is put in. A GUID whose bytes are all 0 has a
    /// number too. `NoMemory` changes nothing (ECMA-335 II.24.2.5).
    #[tactic(auto, using(crate::proofs::ReadLemmas::guids_with))]
    pub fn guid(&mut self, guid: [u8; 16]) -> Result<u64, NoMemory>
        ensures ok { OnOk result (self.new ≡ with_guid self.old guid) }
        ensures number { IfOk result (IsGuidNumber self.new.guids guid) }
        ensures stays { OnOk result (EntriesStay self.old.guids self.new.guids) }
        ensures err { OnErr result (self.new ≡ self.old) }
    {
        let entry = List::from_slice(self.guids.allocator(), &guid)?;
        let place = self.guids.add(entry)?;
        Ok(place / 16 + 1)
    }

    /// The index in #US of a user string of fewer than 2^28 UTF-16 units: the same whenever it is put in. `NoMemory`
    /// changes nothing (ECMA-335 II.24.2.4).
    pub fn user(&mut self, units: &[u16]) -> Result<u64, NoMemory>
        requires { 2 * length units.now + 1 < 2 ^ 29 }
        ensures ok { OnOk result (self.new ≡ with_user self.old units.now) }
        ensures index { IfOk result (StandsAt self.new.users (user_entry units.now)) }
        ensures stays { OnOk result (EntriesStay self.old.users self.new.users) }
        ensures err { OnErr result (self.new ≡ self.old) }
    {
        let entry = user_entry(self.users.allocator(), units)?;
        self.users.add(entry)
    }

    /// The heaps: the entries of each one after the other, and zeros up to a multiple of 4. Each content is read back at
    /// the index that was answered for it.
    pub fn finish(self) -> Result<Heaps, NoMemory>
        ensures laid { IfOk result (λ heaps. heaps ≡ laid_heaps self) }
        ensures texts { IfOk result (λ heaps. TextsReadBack self.texts heaps.strings) }
        ensures users { IfOk result (λ heaps. UsersReadBack self.users heaps.users) }
        ensures guids { IfOk result (λ heaps. GuidsReadBack self.guids heaps.guids) }
        ensures blobs { IfOk result (λ heaps. BlobsReadBack self.blobs heaps.blobs) }
    {
        let strings = self.texts.heap()?;
        let users = self.users.heap()?;
        let guids = self.guids.heap()?;
        let blobs = self.blobs.heap()?;
        Ok(Heaps {
            strings,
            users,
            guids,
            blobs,
        })
    }
}
