//! Open comms beside the first bytes of their ids, which tell most of them apart.
ghost use Rattle.std.specs.Prelude.{◌≡◌, ◌<◌, IfOk, length, true};
ghost use Rattle.std.specs.Int.{to_be_bytes, w64};
ghost use Rattle.std.specs.Ordering.{is_gt, is_lt};
ghost use Rattle.std.specs.declared.cmp.Ordering.TheVariants.{Greater, Less};
ghost use Rattle.comm_versions.specs.Chunks.{id_cmp};
ghost use Rattle.comm_versions.specs.IdPrefixes.{padded};

use comm_core::OpenComm;
use comm_value::Text;
use std::alloc::AllocError;
use std::cmp::Ordering;
use std::marker::Model;

/// The first eight bytes of an id, and zeros where it has fewer, as a number whose first digit is the first byte. So
/// numbers compare as the bytes do.
pub type IdPrefix = u64;

/// An open comm with its id, as contracts see it. The prefix of the id stands beside the pointer to the comm, so that
/// a search follows few pointers.
#[derive(Drop)]
pub struct PrefixedComm {
    prefix: IdPrefix,
    comm: OpenComm,
}

impl Model for PrefixedComm {
    ghost use Rattle.std.specs.Prelude.{◌≡◌};
    ghost use Rattle.std.specs.Int.{to_be_bytes, w64};
    ghost use Rattle.comm_core.specs.Code.{open_code};
    ghost use Rattle.comm_core.specs.Machine.{Name};
    ghost use Rattle.comm_core.specs.declared.comm.Comm.{Comm};
    ghost use Rattle.comm_versions.specs.IdPrefixes.{padded};

    ghost Value = { Name × Comm };

    ghost coded = { open_code };

    ghost view = { λ k. k.comm };

    ghost invariant = { λ k. to_be_bytes w64 k.prefix ≡ padded 8 k.comm.0 };
}

// These bytes, which are less than eight, and zeros behind them.
fn padded_bytes(bytes: &[u8]) -> [u8; 8]
    requires { length bytes.now < 8 }
    ensures { result ≡ padded 8 bytes.now }
{
    let mut prefix = [0; 8];
    for i in 0..bytes.len() {
        prefix[i] = bytes[i];
    }
    prefix
}

// The bytes as a number.
fn number_of(bytes: &[u8; 8]) -> IdPrefix
    ensures { to_be_bytes w64 result ≡ bytes.now }
{
    u64::from_be_bytes(*bytes)
}

/// The prefix of this id.
pub fn id_prefix(id: &Text) -> IdPrefix
    ensures { to_be_bytes w64 result ≡ padded 8 id.now }
{
    let bytes = id.as_str().as_bytes();
    if let Some(prefix) = bytes.first_chunk() {
        return number_of(prefix);
    }
    number_of(&padded_bytes(bytes))
}

// Whether one prefix is below the other in the byte order.
#[inline(always)]
fn is_prefix_below(one: IdPrefix, other: IdPrefix) -> bool
    ensures { result ≡ is_lt (id_cmp (to_be_bytes w64 one) (to_be_bytes w64 other)) }
{
    one < other
}

impl PrefixedComm {
    /// Puts the prefix of its id beside the comm.
    #[inline]
    pub fn new(comm: OpenComm) -> PrefixedComm
        ensures { result ≡ comm }
    {
        let prefix = id_prefix(comm.id());
        PrefixedComm { prefix, comm }
    }

    /// Replaces the comm by another.
    #[inline]
    pub fn replace(&mut self, comm: PrefixedComm)
        ensures { self.new ≡ comm }
    {
        *self = comm;
    }

    /// A copy that shares the comm. Err: its count can't be raised.
    pub fn copy(&self) -> Result<PrefixedComm, AllocError>
        ensures { IfOk result (λ k. k ≡ self.now) }
    {
        Ok(PrefixedComm {
            prefix: self.prefix,
            comm: self.comm.copy()?,
        })
    }

    /// The comm itself.
    pub fn comm(&self) -> &OpenComm
        ensures { result.now ≡ self.now }
    {
        &self.comm
    }

    /// The prefix of its id.
    #[inline]
    pub fn prefix(&self) -> IdPrefix
        ensures { to_be_bytes w64 result ≡ padded 8 self.now.0 }
    {
        self.prefix
    }

    /// Whether the prefixes tell that the id, which has this prefix, is below that of this comm.
    #[inline(always)]
    pub fn starts_above(&self, prefix: IdPrefix, id: &Text) -> bool
        requires { to_be_bytes w64 prefix ≡ padded 8 id.now }
        ensures { result ≡ true → id_cmp id.now self.now.0 ≡ Less }
    {
        // The id stands for the contract.
        let _ = id;
        is_prefix_below(prefix, self.prefix)
    }

    /// Whether the prefixes tell that the id, which has this prefix, is above that of this comm.
    #[inline(always)]
    pub fn starts_below(&self, prefix: IdPrefix, id: &Text) -> bool
        requires { to_be_bytes w64 prefix ≡ padded 8 id.now }
        ensures { result ≡ true → id_cmp id.now self.now.0 ≡ Greater }
    {
        // The id stands for the contract.
        let _ = id;
        is_prefix_below(self.prefix, prefix)
    }

    /// The byte order of the id and the id of this comm. Where their prefixes differ, those tell it faster.
    pub fn order(&self, id: &Text) -> Ordering
        ensures { result ≡ id_cmp id.now self.now.0 }
    {
        id.as_str().cmp(self.comm.id().as_str())
    }

    /// Whether the id, which has this prefix, is below that of this comm.
    #[inline(always)]
    pub fn is_above(&self, prefix: IdPrefix, id: &Text) -> bool
        requires { to_be_bytes w64 prefix ≡ padded 8 id.now }
        ensures { result ≡ is_lt (id_cmp id.now self.now.0) }
    {
        if self.starts_above(prefix, id) {
            return true;
        }
        if self.starts_below(prefix, id) {
            return false;
        }
        self.order(id).is_lt()
    }

    /// Whether the id, which has this prefix, is above that of this comm.
    #[inline(always)]
    pub fn is_below(&self, prefix: IdPrefix, id: &Text) -> bool
        requires { to_be_bytes w64 prefix ≡ padded 8 id.now }
        ensures { result ≡ is_gt (id_cmp id.now self.now.0) }
    {
        if self.starts_below(prefix, id) {
            return true;
        }
        if self.starts_above(prefix, id) {
            return false;
        }
        self.order(id).is_gt()
    }
}
