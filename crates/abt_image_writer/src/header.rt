// The header.
ghost use Rattle.abt_record.specs.Abstract.{network_of};
ghost use Rattle.model_image.specs.Image.{header_bytes};
ghost use Rattle.support_buffer.specs.Puts.{Room, Puts};

use abt_record::Network;
use support_buffer::cursor::Cursor;

/// Puts the header, 16 bytes: 1 for the first form, n, the rule, the verdict (1 or 0) and twelve
/// domains. Needs room for them. Equals `header_bytes` of model_image/specs/Image.antt.
pub fn put_header(out: &mut Cursor<'_>, r: &Network)
    requires { Room out.old 16 }
    ensures { Puts out.old 16 (header_bytes (network_of r.now)) out.new }
{
    out.put(1);
    out.put(r.count);
    out.put(r.rule);
    out.put(r.unsolvable as u8);
    out.put_all(&r.domains);
}
