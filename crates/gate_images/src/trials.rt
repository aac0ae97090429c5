//! What an image is held to.
use abt_image_mover::{Form, load, move_image, store_as};
use abt_record::Network;
use gate_second_reading::buffers::{MARK, untouched};
use std::alloc::{AllocError, Global};
use support_rejection::Rejection;

// A buffer with sixteen bytes more than the longest image.
const LENT: usize = 19760;

// The form that bytes begin with.
fn form_of(bytes: &[u8]) -> Form {
    if bytes.starts_with(&[2]) {
        Form::Second
    } else {
        Form::First
    }
}

// ---- one write into a lent buffer

// The writer puts these bytes, and leaves those behind them.
fn puts<F: FnOnce(&mut [u8]) -> Result<usize, Rejection>>(write: F, bytes: &[u8]) -> bool
    requires { F.IsAlwaysCallable write }
{
    let mut lent = [MARK; LENT];
    write(&mut lent) == Ok(bytes.len()) && lent.starts_with(bytes) && untouched(&lent, bytes.len())
}

// Lent so many bytes, the writer rejects so, and leaves the buffer as it was.
fn refuses<F: FnOnce(&mut [u8]) -> Result<usize, Rejection>>(
    write: F,
    length: usize,
    rejection: Rejection,
) -> bool
    requires { F.IsAlwaysCallable write }
{
    let mut lent = [MARK; LENT];
    length <= LENT && write(&mut lent[..length]) == Err(rejection) && untouched(&lent, 0)
}

// ---- reading

/// The bytes are rejected, or are the image of what they gave, in the form that they begin with.
pub fn read_right(bytes: &[u8]) -> bool {
    match load(bytes) {
        Ok(r) => puts(|out| store_as(form_of(bytes), r, out), bytes),
        Err(rejection) => rejection == Rejection::BadImage,
    }
}

/// The bytes are rejected with 13.
pub fn no_image(bytes: &[u8]) -> bool {
    matches!(load(bytes), Err(Rejection::BadImage))
}

// With a zero behind the image, and with sixteen, it is rejected.
fn ends_right(alloc: Global, image: &[u8]) -> Result<bool, AllocError> {
    let mut longer = Vec::new(alloc);
    longer.extend_from_slice(image)?;
    longer.push(0)?;
    let right = no_image(&longer);
    longer.extend_from_slice(&[0; 15])?;
    Ok(right && no_image(&longer))
}

// ---- all of one image

/// The network's image in a form is these very bytes, and they are read. With zeros behind it, it
/// is no image; a byte short, and out of shape, it is not written. Fails where memory runs out.
pub fn form_right(
    alloc: Global,
    r: &Network,
    form: Form,
    image: &[u8],
) -> Result<bool, AllocError> {
    let broken = Network { rule: 3, ..*r };
    let short = image.len().saturating_sub(1);
    Ok(
        puts(|out| store_as(form, *r, out), image)
            && load(image).is_ok()
            && read_right(image)
            && ends_right(alloc, image)?
            && refuses(|out| store_as(form, *r, out), short, Rejection::ShortBuffer)
            && refuses(|out| store_as(form, broken, out), LENT, Rejection::BadShape),
    )
}

// An image is moved to the other form, but not into a buffer a byte short; damage is told before a
// short buffer.
fn moves_to(image: &[u8], other: &[u8], damaged: &[u8]) -> bool {
    let short = other.len().saturating_sub(1);
    puts(|out| move_image(image, out), other)
        && refuses(|out| move_image(image, out), short, Rejection::ShortBuffer)
        && refuses(|out| move_image(damaged, out), 0, Rejection::BadImage)
}

/// An image is moved there and back.
pub fn moves_right(first: &[u8], second: &[u8]) -> bool {
    first.len() > 1
        && second.len() > 1
        && moves_to(first, second, &first[1..])
        && moves_to(second, first, &second[..1])
}
