// Records: a length and a kind of two bytes each, the low byte first, then a body of that length.
ghost use Rattle.std.specs.Prelude.{◌≡◌, ◌<◌, length, IfSome};
ghost use Rattle.std.specs.Option.{option_map};
ghost use Rattle.reader.specs.Record.{front, ReadBack};

// One record, with its body where it lies. The number of its kind is as it was read, and may stand for none.
#[derive(Clone, Copy)]
pub struct Record<'a> {
    pub kind: u16,
    pub body: &'a [u8],
}

// The record in front of some bytes, and the bytes behind it; none where the bytes end before it does.
pub fn split(bytes: &[u8]) -> Option<(Record<'_>, &[u8])>
    ensures front { option_map (λ t. (t.0.kind, t.0.body.now, t.1.now)) result ≡ front bytes.now }
    ensures short { IfSome result (λ t. length t.0.body.now < 65536) }
{
    let [n0, n1, k0, k1, rest @ ..] = bytes else {
        return None;
    };
    let length = usize::from(u16::from_le_bytes([*n0, *n1]));
    let kind = u16::from_le_bytes([*k0, *k1]);
    if rest.len() < length {
        return None;
    }
    let (body, behind) = rest.split_at(length);
    Some((Record { kind, body }, behind))
}

// A theorem: records that are written one behind the other are cut apart again as they were written.
pub fn records_read_back()
    ensures { ReadBack }
{}
