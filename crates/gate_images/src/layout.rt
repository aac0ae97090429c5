//! The image of a network laid out a second time in both forms, as docs/FORMATS.md has it.
use crate::lines::{lines_of, message_at};
use abt_agent::{Agent, Message, PackedAssignment, Traffic};
use abt_record::Network;
use std::alloc::{AllocError, Global};

/// The parts of an image as they stand in the first form: the header and the bans, a record for
/// each agent, the channels' heads, a record for each message.
#[derive(Drop)]
pub struct Image {
    alloc: Global,
    front: Vec<u8>,
    scanners: Vec<[u8; 170]>,
    /// A channel's head: the number of its first message, or zero.
    pub heads: Vec<[u8; 2]>,
    /// The messages, channel by channel.
    pub messages: Vec<[u8; 16]>,
}

// ---- the bans

// Where the words of each higher agent begin in the table, which has them by higher, then lower
// agent.
const ROWS: [u8; 12] = [0, 0, 1, 3, 6, 10, 15, 21, 28, 36, 45, 55];

// The words of all pairs, by lower, then higher agent.
fn put_bans(out: &mut Vec<u8>, bans: &[u64; 66]) -> Result<(), AllocError> {
    for lower in 0..12 {
        for row in &ROWS[lower + 1..] {
            let word = bans.get(usize::from(*row) + lower).copied().unwrap_or(0);
            out.extend_from_slice(&word.to_le_bytes())?;
        }
    }
    Ok(())
}

// ---- agents

// Twelve values, agent 1 first.
fn slots(digits: u64) -> [u8; 12] {
    let mut bytes = [0u8; 12];
    let mut rest = digits;
    for byte in &mut bytes {
        *byte = (rest % 16) as u8;
        rest /= 16;
    }
    bytes
}

// A nogood for each of values 1 to 8: 1 and its left side, or zeros. `nogood_mask` has a bit for
// each.
fn reasons(nogood_mask: u8, nogoods: &[u64; 8]) -> [u8; 104] {
    let mut bytes = [0u8; 104];
    let mut rest = nogood_mask;
    for v in 0..8 {
        if rest % 2 == 1 {
            bytes[13 * v] = 1;
            bytes[13 * v + 1..13 * v + 13].copy_from_slice(&slots(nogoods[v]));
        }
        rest /= 2;
    }
    bytes
}

fn counts(c: Traffic) -> [u8; 24] {
    let mut bytes = [0u8; 24];
    bytes[..8].copy_from_slice(&c.infos.to_le_bytes());
    bytes[8..16].copy_from_slice(&c.backs.to_le_bytes());
    bytes[16..].copy_from_slice(&c.links.to_le_bytes());
    bytes
}

fn all_counts(a: &Agent) -> [u8; 48] {
    let mut bytes = [0u8; 48];
    bytes[..24].copy_from_slice(&counts(a.sent));
    bytes[24..].copy_from_slice(&counts(a.received));
    bytes
}

// Value, last value, the sets, the view.
fn view(a: &Agent) -> [u8; 18] {
    let mut bytes = [0u8; 18];
    bytes[0] = a.value;
    bytes[1] = a.last;
    bytes[2..4].copy_from_slice(&a.listens.to_le_bytes());
    bytes[4..6].copy_from_slice(&a.informs.to_le_bytes());
    bytes[6..].copy_from_slice(&slots(a.view.digits));
    bytes
}

// These and the nogoods.
fn view_and_reasons(a: &Agent) -> [u8; 122] {
    let mut bytes = [0u8; 122];
    bytes[..18].copy_from_slice(&view(a));
    bytes[18..].copy_from_slice(&reasons(a.nogood_mask, &a.nogoods));
    bytes
}

// These and the counts.
fn scanner(a: &Agent) -> [u8; 170] {
    let mut bytes = [0u8; 170];
    bytes[..122].copy_from_slice(&view_and_reasons(a));
    bytes[122..].copy_from_slice(&all_counts(a));
    bytes
}

// ---- messages

// The packed left side as one word, worked out without the writer's `unpack`.
fn packed_side(lhs: PackedAssignment) -> u64 {
    u64::from(lhs.low) + u64::from(lhs.middle) * 65536 + u64::from(lhs.high) * 4294967296
}

// Sort, value, next index, left side.
fn message(m: Message, next: u16) -> [u8; 16] {
    let (sort, slot, lhs) = match m {
        Message::Info(v) => (1, v, 0),
        Message::Back(v, lhs) => (2, v, packed_side(lhs)),
        Message::AddLink => (3, 0, 0),
    };
    let mut bytes = [0u8; 16];
    bytes[0] = sort;
    bytes[1] = slot;
    bytes[2..4].copy_from_slice(&next.to_le_bytes());
    bytes[4..].copy_from_slice(&slots(lhs));
    bytes
}

// A message's record in the second form: its twelve values are six bytes, the lower-numbered agent
// in the low half.
fn packed(record: &[u8; 16]) -> [u8; 10] {
    let mut bytes = [0u8; 10];
    bytes[..4].copy_from_slice(&record[..4]);
    for k in 0..6 {
        bytes[4 + k] = record[5 + 2 * k] % 16 * 16 + record[4 + 2 * k] % 16;
    }
    bytes
}

// ---- the whole

// The first byte of all records, then the second, and so on.
fn put_by_place<const N: usize>(out: &mut Vec<u8>, records: &[[u8; N]]) -> Result<(), AllocError> {
    for place in 0..N {
        for record in records {
            out.push(record[place])?;
        }
    }
    Ok(())
}

impl Image {
    fn put_front(&mut self, r: &Network) -> Result<(), AllocError> {
        self.front
            .extend_from_slice(&[1, r.count, r.rule, u8::from(r.unsolvable)])?;
        self.front.extend_from_slice(&r.domains)?;
        put_bans(&mut self.front, &r.bans)
    }

    fn put_scanners(&mut self, r: &Network) -> Result<(), AllocError> {
        for a in r.agents.iter().take(usize::from(r.count)) {
            self.scanners.push(scanner(a))?;
        }
        Ok(())
    }

    // The head of a channel is the number of its first message, or zero; the next index of a
    // message is that of the one behind it, or zero.
    fn put_lines(&mut self, r: &Network) -> Result<(), AllocError> {
        for (c, line) in lines_of(r).iter().enumerate() {
            let head = if line.count == 0 { 0 } else { line.first };
            self.heads.push(head.to_le_bytes())?;
            for k in 1..=line.count {
                let next = if k < line.count {
                    line.first.saturating_add(u16::from(k))
                } else {
                    0
                };
                self.messages.push(message(message_at(r, c, k - 1), next))?;
            }
        }
        Ok(())
    }

    /// Lays out a network. Fails where memory runs out.
    pub fn of(alloc: Global, r: &Network) -> Result<Image, AllocError> {
        let mut image = Image {
            alloc,
            front: Vec::new(alloc),
            scanners: Vec::new(alloc),
            heads: Vec::new(alloc),
            messages: Vec::new(alloc),
        };
        image.put_front(r)?;
        image.put_scanners(r)?;
        image.put_lines(r)?;
        Ok(image)
    }

    /// The bytes of the first form.
    pub fn first_form(&self) -> Result<Vec<u8>, AllocError> {
        let mut out = Vec::new(self.alloc);
        out.extend_from_slice(&self.front)?;
        for record in &self.scanners {
            out.extend_from_slice(record)?;
        }
        for head in &self.heads {
            out.extend_from_slice(head)?;
        }
        for record in &self.messages {
            out.extend_from_slice(record)?;
        }
        Ok(out)
    }

    /// The bytes of the second form: "Bytes that begin with 2"; the records stand by place.
    pub fn second_form(&self) -> Result<Vec<u8>, AllocError> {
        let mut out = Vec::new(self.alloc);
        out.push(2)?;
        out.extend(self.front.iter().skip(1).copied())?;
        put_by_place(&mut out, &self.scanners)?;
        for head in &self.heads {
            out.extend_from_slice(head)?;
        }
        let mut records = Vec::new(self.alloc);
        for record in &self.messages {
            records.push(packed(record))?;
        }
        put_by_place(&mut out, &records)?;
        Ok(out)
    }
}
