// Why a text gives no sheet.
ghost use Rattle.std.specs.Prelude.{◌≡◌};
ghost use Rattle.sheet_text_reader.specs.declared.unread.TextRejection.TheVariants.{RejectedLine, Refused};

use crate::lines::RejectedLine;
use support_rejection::Rejection;

/// Why a text gives no sheet.
#[derive(Clone, Copy, Debug, PartialEq, Eq)]
pub enum TextRejection {
    /// A line is faulty, or the text is too long or has no statement.
    RejectedLine(RejectedLine),
    /// The sheet is not written: `ShortBuffer`, where the buffer is shorter.
    Refused(Rejection),
}

impl From<RejectedLine> for TextRejection {
    ghost from_gives = { λ faulty e. e ≡ RejectedLine faulty };

    fn from(faulty: RejectedLine) -> TextRejection {
        TextRejection::RejectedLine(faulty)
    }
}

impl From<Rejection> for TextRejection {
    ghost from_gives = { λ rejection e. e ≡ Refused rejection };

    fn from(rejection: Rejection) -> TextRejection {
        TextRejection::Refused(rejection)
    }
}
