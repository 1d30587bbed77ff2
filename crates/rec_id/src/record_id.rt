//! The identity of a record: which client appended it, and as which of its appends.

ghost use Rattle.std.specs.Prelude.{◌≡◌, ◌≢◌, ◌+◌, ◌*◌, ◌^◌, ◌%◌, ◌<◌, ◌≤◌, ◌↔◌, IsErrOf, IfOk, IfSome, IfNone, Some};
ghost use Rattle.rec_id.specs.Identity.{Identity, IsIdentity, packed, shard_of};

use crate::limits::MAX_CLIENT;
use std::marker::Model;

/// Why two numbers are no identity.
#[derive(Clone, Copy, Debug, PartialEq, Eq)]
pub enum IdError {
    /// A client's number is at most 255.
    ClientOver,
    /// The appends of a client are numbered from 1.
    ZeroNumber,
}

/// A client, 0 to 255, and the number of an append of it, from 1 to 2^32 - 1.
#[derive(Clone, Copy, Debug, PartialEq, Eq, PartialOrd, Ord, Hash)]
pub struct RecordId {
    client: u32,
    number: u32,
}

impl Model for RecordId {
    ghost use Rattle.rec_id.specs.Identity.{Identity, IsIdentity};

    ghost Value = { Identity };

    ghost view = { λ id. record { client = id.client; number = id.number } };

    ghost invariant = { λ id. IsIdentity (record { client = id.client; number = id.number }) };

    ghost inverse = { λ id. record { client = id.client; number = id.number } };
}

impl RecordId {
    /// The identity of these two numbers.
    pub fn new(client: u32, number: u32) -> Result<RecordId, IdError>
        ensures ok { IfOk result (λ id. id ≡ record { client = client; number = number }) }
        ensures client_over { IsErrOf result IdError.ClientOver ↔ (MAX_CLIENT < client) }
        ensures zero_number { IsErrOf result IdError.ZeroNumber ↔ ((client ≤ MAX_CLIENT) × (number ≡ 0)) }
    {
        if client > MAX_CLIENT {
            return Err(IdError::ClientOver);
        }
        if number == 0 {
            return Err(IdError::ZeroNumber);
        }
        Ok(RecordId { client, number })
    }

    pub fn client(self) -> u32
        ensures client { result ≡ self.client }
        ensures within { result ≤ MAX_CLIENT }
    {
        self.client
    }

    pub fn number(self) -> u32
        ensures number { result ≡ self.number }
        ensures within { (1 ≤ result) × (result < 2 ^ 32) }
    {
        self.number
    }

    /// The identity as one word, the client's number in the upper half. Distinct identities have
    /// distinct words.
    pub fn pack(self) -> u64
        ensures packed { result ≡ packed self }
        ensures valid { IsIdentity self }
    {
        u64::from(self.client) * 0x1_0000_0000 + u64::from(self.number)
    }

    /// The identity that packs to `word`, if there is one.
    pub fn unpack(word: u64) -> Option<RecordId>
        ensures packs { IfSome result (λ id. packed id ≡ word) }
        ensures none { IfNone result ((id : Identity) → IsIdentity id → packed id ≢ word) }
        ensures only { (id : Identity) → IsIdentity id → packed id ≡ word → result ≡ Some id }
    {
        let client = word / 0x1_0000_0000;
        let number = word % 0x1_0000_0000;
        if client > u64::from(MAX_CLIENT) {
            return None;
        }
        if number == 0 {
            return None;
        }
        Some(RecordId {
            client: client as u32,
            number: number as u32,
        })
    }
}

/// The shard that keeps the data of a record where the data doesn't go through the sequencing
/// replicas.
pub fn shard_of(id: RecordId, shards: u32) -> u32
    requires { 1 ≤ shards }
    ensures shard { result ≡ shard_of id shards }
    ensures within { result < shards }
{
    ((u64::from(id.client()) + u64::from(id.number())) % u64::from(shards)) as u32
}

#[cfg(test)]
mod tests {
    use super::*;
    use std::test::Fail;

    #[test]
    fn identities(rt: HostRuntime) -> Result<(), Fail> {
        for (client, number, want) in [(256, 0, IdError::ClientOver), (0, 0, IdError::ZeroNumber)] {
            assert_eq!(rt; RecordId::new(client, number).err(), Some(want));
        }
        let id = RecordId::new(1, 2).ok().ok_or("an identity")?;
        assert_eq!(rt; id.pack(), 4_294_967_298);
        assert_eq!(rt; RecordId::unpack(4_294_967_298), Some(id));
        assert_eq!(rt; RecordId::unpack(21_474_836_480), None);
        assert_eq!(rt; shard_of(id, 2), 1);
        Ok(())
    }
}
