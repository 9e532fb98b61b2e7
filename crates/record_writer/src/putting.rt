// The bytes of a record, put into a buffer that has room.
ghost use Rattle.std.specs.Prelude.{◌≡◌, true, [], ◌∷◌, ◌++◌, ◌+◌, ◌-◌, ◌≤◌, ◌<◌, length};
ghost use Rattle.words.specs.Buffers.{write_at, put, overwrite};
ghost use Rattle.record_rules.specs.Layout.{byte_of};
ghost use Rattle.record_rules.specs.Trailers.{high_bytes, high_numbers_fit, ending};
ghost use Rattle.record_rules.specs.Fields.{head_bytes, record_bytes, numbers_fit, fits};
ghost use Rattle.record_writer.specs.Steps.{room_for};

use numbers::Kind;
use record_rules::{Fields, High, Shape, Trailer, layouts};

// The byte of a value, without flags.
fn byte_of(h: Shape, v: usize) -> u8
    requires { byte_of h v < 256 }
    ensures { result ≡ byte_of h v }
{
    (h.fixed * h.low + v) as u8
}

// The six bytes before the sequence sets.
fn head_bytes(k: Kind, f: Fields) -> [u8; 6]
    requires { numbers_fit k f ≡ true }
    ensures { result ≡ head_bytes k f }
{
    let l = layouts::record_layout(k);
    let less_one = byte_of(l.length_size, f.length_size - 1);
    let fifth = f.complete.bit() * layouts::COMPLETE + less_one;
    let sixth = byte_of(l.count, f.sequences);
    [
        layouts::VERSION,
        f.profile as u8,
        f.compatibility as u8,
        f.level as u8,
        fifth,
        sixth,
    ]
}

// The four bytes of a trailer before its sets.
#[tactic(auto, using(record_rules::proofs::Numbers::high_numbers, record_rules::proofs::Shapes::plain_below, record_rules::proofs::Shapes::sound_chroma, record_rules::proofs::Shapes::sound_depth))]
fn high_bytes(t: High) -> [u8; 4]
    requires { high_numbers_fit t ≡ true }
    ensures { result ≡ high_bytes t }
{
    let format = byte_of(layouts::CHROMA, t.format);
    let luma = byte_of(layouts::DEPTH, t.luma);
    let chroma = byte_of(layouts::DEPTH, t.chroma);
    [format, luma, chroma, t.extensions as u8]
}

// Whether a buffer has room for a head and three parts; their sum may pass what a usize holds.
pub(crate) fn room_for(
    room: usize,
    head: usize,
    sequences: usize,
    pictures: usize,
    extensions: usize,
) -> Option<usize>
    ensures { result ≡ room_for (head + sequences + pictures + extensions) room }
{
    let n = head
        .checked_add(sequences)?
        .checked_add(pictures)?
        .checked_add(extensions)?;
    (n <= room).then_some(n)
}

// The bytes of a trailer before its sets, at a place.
fn put_trailer(out: &mut [u8], at: usize, t: Trailer)
    requires { ((ending t).fits ≡ true) × (at + length (ending t).head ≤ length out.old) }
    ensures { out.new ≡ write_at out.old at (ending t).head }
{
    match t {
        Trailer::None | Trailer::Absent => {}
        Trailer::Present(high) => {
            let values = high_bytes(high);
            numbers::put_bytes(out, at, &values);
        }
    }
}

// The head, the sequence sets, and the number of picture sets, at the start.
fn put_front(out: &mut [u8], k: Kind, f: Fields, sequences: &[u8])
    requires { (numbers_fit k f ≡ true) × (6 + length sequences.now + 1 ≤ length out.old) }
    ensures { out.new ≡ write_at out.old 0 (head_bytes k f ++ sequences.now ++ (f.pictures ∷ [])) }
{
    let head = head_bytes(k, f);
    let count = [f.pictures as u8];
    let at = layouts::HEAD + sequences.len();
    numbers::put_bytes(out, 0, &head);
    numbers::put_bytes(out, layouts::HEAD, sequences);
    numbers::put_bytes(out, at, &count);
}

// The record, where it fits and there is room; its trailer has so many bytes before its sets.
pub(crate) fn put_record(
    k: Kind,
    f: Fields,
    sequences: &[u8],
    pictures: &[u8],
    head: usize,
    extensions: &[u8],
    out: &mut [u8],
)
    requires { (fits k f sequences.now pictures.now extensions.now ≡ true) × (head ≡ length (ending f.trailer).head)
        × (length (record_bytes k f sequences.now pictures.now extensions.now) ≤ length out.old) }
    ensures { out.new ≡ overwrite out.old (record_bytes k f sequences.now pictures.now extensions.now) }
{
    let at = layouts::HEAD + sequences.len() + 1;
    let end = at + pictures.len();
    put_front(out, k, f, sequences);
    numbers::put_bytes(out, at, pictures);
    put_trailer(out, end, f.trailer);
    numbers::put_bytes(out, end + head, extensions);
}
