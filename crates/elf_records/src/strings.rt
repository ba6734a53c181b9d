//! Texts in a string table: each ends at its first zero byte (gABI, "String Table").

ghost use Rattle.std.specs.Prelude.{◌≡◌, ◌==◌, ◌+◌, ◌<◌, ◌≤◌, drop, length, MatchOption};
ghost use Rattle.std.specs.List.{position_or_len};
ghost use Rattle.elf_records.specs.Strings.{IsNamesEnd, text_at};

/// The offset after the last zero byte of the string table of `size` bytes at `from`, or 0 if it has none. A name
/// ends if it begins before this offset.
pub fn names_end(bytes: &[u8], from: u64, size: u64) -> u64
    requires { from + size ≤ length bytes.now }
    ensures { IsNamesEnd bytes.now from size result }
{
    let mut end = size;
    while end > 0 && bytes[(from + end - 1) as usize] != 0 {
        end -= 1;
    }
    end
}

/// How many bytes come before the first zero byte.
fn text_len(bytes: &[u8]) -> usize
    ensures { result ≡ position_or_len (λ byte. byte == 0) bytes.now }
{
    bytes
        .iter()
        .position(|byte| *byte == 0)
        .unwrap_or(bytes.len())
}

/// The bytes of a string table from an offset on; empty past its end.
fn rest_at(table: &[u8], at: usize) -> &[u8]
    ensures { result.now ≡ drop at table.now }
{
    if table.len() <= at {
        return &[];
    }
    &table[at..]
}

/// The text of a string table from an offset up to the first zero byte.
#[tactic(auto, unfolding(crate::specs::Strings::text_at))]
pub fn text_at(table: &[u8], at: usize) -> &[u8]
    ensures { result.now ≡ text_at table.now at }
{
    let rest = rest_at(table, at);
    &rest[..text_len(rest)]
}

/// The text at an offset, as [`text_at`]; `None` if it has more than `limit` bytes. No byte after the limit is read.
#[tactic(auto, unfolding(crate::specs::Strings::text_at), using(crate::proofs::TextLengths::longer_than, crate::proofs::TextLengths::is_short))]
pub fn short_text_at(table: &[u8], at: usize, limit: usize) -> Option<&[u8]>
    ensures { MatchOption result (limit < length (text_at table.now at))
        (λ text. (text.now ≡ text_at table.now at) × (length text.now ≤ limit)) }
{
    let rest = rest_at(table, at);
    if rest.len() <= limit {
        return Some(&rest[..text_len(rest)]);
    }
    let len = text_len(&rest[..limit + 1]);
    if len <= limit {
        return Some(&rest[..len]);
    }
    None
}
