//! The dispatcher above a network: its count and place, and a pick. The rules are in docs/RULES.md,
//! 'The dispatcher'.
ghost use Rattle.std.specs.Prelude.{◌≡◌, ◌≢◌, IfOk, IfErr, OnErr};
ghost use Rattle.model_network.specs.Network.{Network as Network'};
ghost use Rattle.model_network.specs.Delivery.{answer_number};
ghost use Rattle.theorems_network.specs.Calls.{Deliver};
ghost use Rattle.model_dispatch.specs.Dispatch.{dispatcher, pick as pick_by};
ghost use Rattle.abt_dispatch.specs.Abstract.{line_of, served_of};
ghost use Rattle.abt_network.specs.Numbers.{answered_number};
ghost use Rattle.abt_network.specs.Histories.{GoesOn, Stands};
ghost use Rattle.abt_network.specs.Abstract.{network_of};
ghost use Rattle.abt_network.specs.Picks.{dispatcher_of};

use crate::Network;
use abt_dispatch::{Dispatcher, Line, NO_LINE};
use support_rejection::Rejection;

/// A dispatcher's count and place. A host may hand over any.
#[derive(Clone, Copy, Debug, PartialEq, Eq)]
pub struct Dispatch {
    /// The count of picks that made a delivery. At 2^64 - 1 it stays.
    pub picks: u64,
    /// The channel that an even pick served last; the next even pick goes on behind it. Numbers
    /// that are no channel of the network mean that it begins with 1 to 2.
    pub place: Line,
}

impl Dispatch {
    /// Returns a new dispatcher's: no picks made, and no place. Equals `dispatcher` of
    /// model_dispatch/specs/Dispatch.antt, above any network.
    #[tactic(auto, unfolding(model_dispatch::specs::Dispatch::dispatcher))]
    pub fn begin() -> Dispatch
        ensures { (w : Network') → dispatcher_of w result ≡ dispatcher w }
    {
        Dispatch {
            picks: 0,
            place: NO_LINE,
        }
    }
}

impl Network {
    /// Makes one pick, and returns the channel that it served. An odd pick serves the wish, if it
    /// can be delivered, and leaves the place. An even pick, or an odd one whose wish cannot be
    /// delivered, serves the first channel in turn that can, and the place moves there. The first
    /// pick of all is odd; with the count at 2^64 - 1 every pick is even. Takes any count, place
    /// and wish.
    ///
    /// Rejects with `VerdictStands` (7). Where no channel can be delivered, it rejects with
    /// `EmptyChannel` (8) if nothing waits, and with `NoRoom` (10) otherwise. The network, the
    /// count and the place are then as before. Equals `pick` of model_dispatch/specs/Dispatch.antt.
    pub fn pick(&mut self, dispatch: &mut Dispatch, wish: Line) -> Result<Line, Rejection>
        ensures state { dispatcher_of (network_of self.new) dispatch.new ≡ (pick_by (dispatcher_of (network_of self.old) dispatch.old) (line_of wish)).state }
        ensures number { answered_number result ≡ answer_number (pick_by (dispatcher_of (network_of self.old) dispatch.old) (line_of wish)).answer }
        ensures served { served_of result ≡ (pick_by (dispatcher_of (network_of self.old) dispatch.old) (line_of wish)).served }
        ensures same { OnErr result ((network_of self.new ≡ network_of self.old) × (dispatch.new ≡ dispatch.old)) }
        ensures never_broken { IfErr result (λ e. e ≢ Rejection.BadShape) }
        ensures reached { IfOk result (λ l. GoesOn (Deliver l.from l.to) (network_of self.old) (network_of self.new)) }
        ensures stands { Stands (network_of self.old) (network_of self.new) }
    {
        let Dispatch { picks, place } = *dispatch;
        let picked = abt_dispatch::pick(
            Dispatcher {
                network: self.state,
                picks,
                place,
            },
            wish,
        );
        self.state = picked.state.network;
        *dispatch = Dispatch {
            picks: picked.state.picks,
            place: picked.state.place,
        };
        picked.answer
    }
}
