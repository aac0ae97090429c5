//! The channels (lines), gone through for the test of the shape: sender by sender, the receivers
//! upward, the messages of a channel from the last to the first.
ghost use Rattle.std.specs.Prelude.{◌≡◌, true};
ghost use Rattle.model_network.specs.Lines.{is_channel};
ghost use Rattle.model_network.specs.Shape.{channel_in_shape};
ghost use Rattle.abt_shape.specs.Frames.{Framing};
ghost use Rattle.abt_record.specs.Abstract.{row_of, network_of};
ghost use Rattle.abt_record.specs.Looking.{channels_in_shape};

use crate::Network;
use abt_packed::{Entries, digit, has};
use abt_shape::channels::is_link;
use abt_shape::frames::Frame;
use abt_shape::places::{channel_at, lines_of, place_at};

// "A line holds at most eight messages".
const CAPACITY: u8 = 8;

impl Network {
    /// Returns whether all channels are in shape, where the frame is the network's.
    pub(crate) fn lines_fit(&self, frame: &Frame) -> bool
        ensures { Framing (network_of self.now) frame.now → result ≡ channels_in_shape self.now }
    {
        for (k, row) in self.counts.iter().enumerate() {
            let from = k as u8 + 1;
            for (to, held) in Entries(lines_of(*row, from)) {
                if !self.line_fits(frame, from, to, held) {
                    return false;
                }
            }
        }
        true
    }

    // The channel from one agent to another, with `held` messages, is in shape. An AddLink fits no
    // more where one was `asked`: the receiver informs the sender already, or one was met.
    fn line_fits(&self, frame: &Frame, from: u8, to: u8, held: u8) -> bool
        requires { (is_channel from to ≡ true) × (held ≡ row_of self.now.counts from to) }
        ensures { Framing (network_of self.now) frame.now → result ≡ channel_in_shape (network_of self.now) from to }
    {
        if CAPACITY < held {
            return false;
        }
        let row = from as usize - 1;
        let head = digit(self.heads[row], to);
        let channel = channel_at(from, to);
        let mut asked = has(frame.informs[to as usize - 1], from);
        for ahead in (0..held).rev() {
            let place = self.places[place_at(channel, head, ahead)];
            if !frame.message_fits(from, to, place.message, asked) {
                return false;
            }
            asked |= is_link(place.message);
        }
        true
    }
}
