//! Images of either form: read, written, and moved to the other form. docs/FORMATS.md, 'The second
//! form'. Stands on `abt_image_reader` and `abt_image_writer`, which know the first form; the
//! second is made of the first. Start reading at `load`, `store_as` and `move_image`. There is no
//! heap: whole images stand in arrays of the greatest length that one can have, 19,744 bytes in the
//! first form and 13,408 in the second.
#![tactic(auto)]

ghost use Rattle.std.specs.Prelude.{◌≡◌, true, false, ◌≤◌, eqb, get_or, take, IfOk, IfErr};
ghost use Rattle.model_base.specs.Lent.{put as put_by};
ghost use Rattle.abt_record.specs.Abstract.{network_of};
ghost use Rattle.support_buffer.specs.Abstract.{written_of, InBuffer};
ghost use Rattle.model_image.specs.Plain.{Plain};
ghost use Rattle.model_image_forms.specs.Forms.{Second, second_form, small, large};
ghost use Rattle.model_image_forms.specs.Reading.{load_second, load as load_by};
ghost use Rattle.model_image_forms.specs.Writing.{store as store_by};
ghost use Rattle.model_image_forms.specs.Moving.{move as move_by};
ghost use Rattle.abt_image_reader.specs.Loaded.{loaded_of};
ghost use Rattle.abt_image_mover.specs.Whole.{Whole, Packable};
ghost use Rattle.abt_image_mover.specs.Form.{form_named};

use abt_image_reader::load_first;
use abt_image_writer::store;
use abt_record::Network;
use support_buffer::put;
use support_rejection::Rejection;

mod forms;
mod packing;
mod places;

use forms::{put_large, put_small};

/// The form of an image. docs/FORMATS.md, 'The image' and 'The second form'.
#[derive(Clone, Copy)]
pub enum Form {
    /// The image begins with 1; a message has 16 bytes.
    First,
    /// The image begins with 2; a message has 10 bytes, and records are laid by place.
    Second,
}

// ---- reading

// "Bytes that begin with 2 are read as the second form, all others as the first."
#[tactic(auto, unfolding(model_image_forms::specs::Forms::second_form))]
fn is_second(s: &[u8]) -> bool
    ensures { result ≡ eqb (get_or s.now 0 0) second_form }
{
    matches!(s, [2, ..])
}

// Whether bytes may be an image in the second form: of no more agents and messages than a network
// has, and with no part of a message.
fn is_whole(s: &[u8]) -> bool
    ensures { (result ≡ true → Whole 10 s.now) × (result ≡ false → Whole 10 s.now → ⊥) }
{
    if s.len() < 808 || 12 < s[1] {
        return false;
    }
    let before = 808 + 170 * s[1] as usize;
    before <= s.len() && s.len() - before <= 10560 && (s.len() - before) % 10 == 0
}

// Puts the first form of bytes in the second, and returns its length; `BadImage` where they are not
// whole.
fn first_of(s: &[u8], first: &mut [u8; 19744]) -> Result<usize, Rejection>
    ensures whole { IfOk result (λ n. (n ≤ 19744) × (take n first.new ≡ large s.now)) }
    ensures refused { IfErr result (λ e. (e ≡ Rejection.BadImage) × (Whole 10 s.now → ⊥)) }
{
    if !is_whole(s) {
        return Err(Rejection::BadImage);
    }
    Ok(put_large(first, s))
}

// Reads s in the second form, where `first` is its first form: that is read, made into the second
// form again, and compared with s.
fn read_second(s: &[u8], first: &[u8]) -> Result<Network, Rejection>
    requires { first.now ≡ large s.now }
    ensures { loaded_of result ≡ load_second s.now }
{
    let network = load_first(first)?;
    let mut again = [0u8; 13408];
    let n = put_small(&mut again, first);
    if &again[..n] == s {
        Ok(network)
    } else {
        Err(Rejection::BadImage)
    }
}

fn load_second(s: &[u8]) -> Result<Network, Rejection>
    ensures { loaded_of result ≡ load_second s.now }
{
    let mut first = [0u8; 19744];
    let n = first_of(s, &mut first)?;
    read_second(s, &first[..n])
}

/// Reads an image of either form, and returns the network that it is the image of. Bytes that begin
/// with 2 are read as the second form, all others as the first.
///
/// Error: `BadImage` (13) unless the bytes are the image of a network in shape. Equals `load` of
/// model_image_forms/specs/Reading.antt.
pub fn load(s: &[u8]) -> Result<Network, Rejection>
    ensures { loaded_of result ≡ load_by s.now }
{
    if is_second(s) {
        load_second(s)
    } else {
        load_first(s)
    }
}

// ---- writing

// Writes these bytes, where there is room; else `ShortBuffer`.
fn write(s: &[u8], out: &mut [u8]) -> Result<usize, Rejection>
    ensures { written_of result out.new ≡ put_by s.now out.old }
{
    if out.len() < s.len() {
        return Err(Rejection::ShortBuffer);
    }
    put(out, 0, s);
    Ok(s.len())
}

// Writes their second form, where there is room; else `ShortBuffer`. The room is tested before
// anything is written.
fn write_small(s: &[u8], out: &mut [u8]) -> Result<usize, Rejection>
    requires { Packable s.now }
    ensures { written_of result out.new ≡ put_by (small s.now) out.old }
{
    let messages = 808 + 170 * s[1] as usize;
    if out.len() < messages + (s.len() - messages) / 16 * 10 {
        return Err(Rejection::ShortBuffer);
    }
    Ok(put_small(out, s))
}

/// Writes the image of a network in the second form, and returns its length: 808 + 170 * n + 10 * k
/// bytes for n agents and k messages, 13,408 at most. Bytes past it stay.
///
/// Errors: `BadShape` (5) where the network is out of shape, then `ShortBuffer` (12). The buffer is
/// untouched in both. Equals `store` of model_image_forms/specs/Writing.antt for the form `Second`.
pub fn store_small(r: Network, out: &mut [u8]) -> Result<usize, Rejection>
    ensures out_after { written_of result out.new ≡ store_by Second (network_of r) out.old }
    ensures length_in_bounds { InBuffer result out.new }
{
    let mut first = [0u8; 19744];
    let n = store(r, &mut first)?;
    write_small(&first[..n], out)
}

/// Writes the image of a network in the form given, and returns its length. Bytes past it stay.
///
/// Errors: `BadShape` (5) where the network is out of shape, then `ShortBuffer` (12). The buffer is
/// untouched in both. Equals `store` of model_image_forms/specs/Writing.antt.
pub fn store_as(form: Form, r: Network, out: &mut [u8]) -> Result<usize, Rejection>
    ensures out_after { written_of result out.new ≡ store_by (form_named form) (network_of r) out.old }
    ensures length_in_bounds { InBuffer result out.new }
    // every network of the code holds nothing outside its arrays, so the claims about images hold
    // of it
    ensures plain { Plain (network_of r) }
{
    match form {
        Form::First => store(r, out),
        Form::Second => store_small(r, out),
    }
}

// ---- moving

// Moves an image in the second form to the first.
fn move_second(s: &[u8], out: &mut [u8]) -> Result<usize, Rejection>
    requires { get_or s.now 0 0 ≡ second_form }
    ensures { written_of result out.new ≡ move_by s.now out.old }
{
    let mut first = [0u8; 19744];
    let n = first_of(s, &mut first)?;
    read_second(s, &first[..n])?;
    write(&first[..n], out)
}

/// Writes the image of the same network in the other form, and returns its length. Bytes past it
/// stay. An image moved to the other form and back is the same bytes.
///
/// Errors: `BadImage` (13) unless the bytes are the image of a network in shape, then `ShortBuffer`
/// (12). The buffer is untouched in both. Equals `move` of model_image_forms/specs/Moving.antt.
pub fn move_image(s: &[u8], out: &mut [u8]) -> Result<usize, Rejection>
    ensures out_after { written_of result out.new ≡ move_by s.now out.old }
    ensures length_in_bounds { InBuffer result out.new }
{
    if is_second(s) {
        return move_second(s, out);
    }
    load_first(s)?;
    write_small(s, out)
}
