//! What a reader has seen, with the listing that it read last.
ghost use Rattle.std.specs.Prelude.{◌≡◌, ◌↔◌, ◌<◌, ℕ, None, Some, option_map, true, IfSome, IsSome};
ghost use mathlib.Core.List.{IsPrefix};
ghost use Rattle.comm_core.specs.History.{replay};
ghost use Rattle.comm_core.specs.Reads.{infos};
ghost use Rattle.comm_versions.specs.Listing.{ListsAlikeSince, WasListedAfter, reader_view};

use crate::history::History;
use crate::stamp::Stamp;
use comm_messages::Infos;
use comm_value::Text;
use std::alloc::{AllocError, Global};
use std::marker::Model;

// A list of comms that was read after so many entries.
#[derive(Drop)]
struct Listing {
    count: u64,
    asked: Option<Text>,
    comms: Infos,
}

/// The front that a reader has seen, and the list of comms that it read last. Contracts see the front, and of the list
/// its filter and after how many entries it was read.
#[derive(Drop)]
pub struct ReaderState<M: History> {
    front: Stamp<M>,
    last: Option<Listing>,
}

impl<M: History> Model for ReaderState<M> {
    ghost use Rattle.std.specs.Prelude.{◌≡◌, IfSome, option_map};
    ghost use Rattle.comm_versions.specs.Code.{reader_code};
    ghost use Rattle.comm_versions.specs.Listing.{ReaderView, WasListed, reader_view};

    ghost Value = { ReaderView };

    ghost coded = { reader_code };

    ghost view = { λ s. reader_view s.front (option_map (λ l. (l.count, l.asked)) s.last) };

    ghost invariant = { λ s.
        IfSome s.last (λ l. WasListed M.limits.comms l.count l.asked l.comms s.front) };
}

// Whether both filters are the same.
fn is_same(one: &Option<Text>, other: Option<&Text>) -> bool
    ensures { result ≡ true ↔ one.now ≡ option_map (λ t. t.now) other.entry }
{
    match (one, other) {
        (None, None) => true,
        (Some(one), Some(other)) => one == other,
        _ => false,
    }
}

impl<M: History> ReaderState<M> {
    /// The state of a reader that has seen this front and read nothing.
    pub fn new(front: Stamp<M>) -> ReaderState<M>
        ensures { result ≡ reader_view front None }
    {
        ReaderState { front, last: None }
    }

    /// The front that the reader has seen.
    pub fn front(&self) -> &Stamp<M>
        ensures { result.now ≡ self.now.front }
    {
        &self.front
    }

    /// Sees a front that includes what was seen.
    #[inline]
    pub fn advance(&mut self, front: Stamp<M>)
        requires { IsPrefix self.old.front front }
        ensures { self.new ≡ reader_view front self.old.listed }
    {
        self.front = front;
    }

    /// After how many entries the list with this filter was read, if that was read last.
    pub fn listed_at(&self, asked: Option<&Text>) -> Option<u64>
        ensures { IfSome result (λ count.
            WasListedAfter self.now count (option_map (λ t. t.now) asked.entry)) }
    {
        match &self.last {
            Some(last) if is_same(&last.asked, asked) => Some(last.count),
            _ => None,
        }
    }

    /// The list that was read last, where it has this filter and was read after the listing last changed.
    pub fn cached_infos(&self, listing_since: u64, asked: Option<&Text>) -> Option<&Infos>
        requires { ListsAlikeSince M.limits.comms listing_since self.now.front }
        ensures infos { IfSome result (λ i. i.now
            ≡ infos (replay M.limits.comms self.now.front) (option_map (λ t. t.now) asked.entry)) }
        ensures cached { (count : ℕ)
            → WasListedAfter self.now count (option_map (λ t. t.now) asked.entry)
            → listing_since < count → IsSome result }
    {
        match &self.last {
            Some(last) if listing_since < last.count && is_same(&last.asked, asked) => Some(
                &last.comms,
            ),
            _ => None,
        }
    }

    /// Caches a list that was read after this front. Err: memory.
    pub fn keep(&mut self, asked: Option<&Text>, comms: &Infos) -> Result<(), AllocError>
        requires { comms.now
            ≡ infos (replay M.limits.comms self.old.front) (option_map (λ t. t.now) asked) }
        ensures { self.new.front ≡ self.old.front }
    {
        let asked = match asked {
            Some(name) => Some(name.copy()?),
            None => None,
        };
        self.last = Some(Listing {
            count: self.front.number(),
            asked,
            comms: comms.copy()?,
        });
        Ok(())
    }
}
