//! Tries images on networks that random deliveries left, under both rules. Each is written in both
//! forms and held to a second layout, byte for byte, the bytes behind it included; read, and
//! written again; moved to the other form; rejected with zeros behind it, and in another layout;
//! written into a buffer one byte short; and, out of shape, not written at all. Of some images
//! every byte is changed and every beginning is cut off: what is read of that writes back to the
//! same bytes, or is rejected with 13. At the end stands how much was tried. The second layout
//! shares with what it tries the numbering of the channels alone, which is proved. Start with
//! `layout`, then `trials`.
#![tactic(auto)]

mod layout;
mod lines;
mod tallies;
mod trials;
mod turned;

use abt_image_mover::Form;
use abt_record::Network;
use abt_words::printing::Out;
use gate_random::drafts::random_draft;
use gate_random::draws::{next, pick};
use gate_random::rails::play_random;
use layout::Image;
use std::alloc::{AllocError, Global};
use tallies::Tally;
use trials::{form_right, moves_right, no_image, read_right};
use turned::turn;

// ---- damage

impl Tally {
    fn count_change(&mut self, form: Form) {
        match form {
            Form::First => self.changed.add(1),
            Form::Second => self.small_changed.add(1),
        }
    }

    // Tries every beginning of the image.
    fn try_cuts(&mut self, image: &[u8]) {
        for k in 0..image.len() {
            self.judge(no_image(&image[..k]));
            self.cut.add(1);
        }
    }

    // Turns every byte of the image in turn into another one, for a while: by one bit at either
    // end, and downward.
    fn try_changes(&mut self, form: Form, image: &mut [u8]) {
        for more in [1, 128, 255] {
            for k in 0..image.len() {
                let byte = image[k];
                image[k] = byte.wrapping_add(more);
                self.judge(read_right(image));
                image[k] = byte;
                self.count_change(form);
            }
        }
    }
}

// ---- one network

impl Tally {
    // Tries the image in another layout, where there is one: it is rejected.
    fn try_turned(&mut self, mut image: Image, r: &Network) -> Result<(), AllocError> {
        if turn(&mut image, r) {
            self.turned.add(1);
            self.judge(no_image(&image.first_form()?));
        }
        Ok(())
    }

    // Tries the image in both forms. Damage is tried on one network in a hundred.
    fn try_image(&mut self, alloc: Global, r: &Network, damage: bool) -> Result<(), AllocError> {
        let image = Image::of(alloc, r)?;
        let mut first = image.first_form()?;
        let mut second = image.second_form()?;
        self.messages.add(image.messages.len() as u64);
        self.judge(form_right(alloc, r, Form::First, &first)?);
        self.judge(form_right(alloc, r, Form::Second, &second)?);
        self.judge(moves_right(&first, &second));
        self.moved.add(2);
        self.try_turned(image, r)?;
        if damage {
            self.try_cuts(&first);
            self.try_changes(Form::First, &mut first);
            self.try_changes(Form::Second, &mut second);
        }
        Ok(())
    }

    fn try_rail(&mut self, alloc: Global, r: &Network, damage: bool) -> Result<(), AllocError> {
        self.rails.add(1);
        self.by_rule_2.add(u64::from(r.rule == 2));
        self.at_verdict.add(u64::from(r.unsolvable));
        self.try_image(alloc, r, damage)
    }
}

// The network that up to 60 deliveries leave, where the start takes the sheet that is drawn.
fn rail_of(rule: u8, state: u64) -> Option<Network> {
    let draft = random_draft(state);
    let fresh = abt_start::start(rule, draft.sheet()).ok()?;
    let most = pick(draft.state, 60);
    Some(play_random(fresh, draft.state, most).rail)
}

fn main(rt: HostRuntime) -> Result<(), AllocError> {
    let mut tally = Tally::new();
    let mut state: u64 = 20261116;
    for k in 0..1000 {
        state = next(state);
        for rule in [1, 2] {
            if let Some(rail) = rail_of(rule, state) {
                tally.try_rail(rt.alloc(), &rail, k % 100 == 0)?;
            }
        }
    }
    tally.report(Out::new(rt.stdout()));
    Ok(())
}
