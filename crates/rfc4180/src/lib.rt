// RFC 4180 in one pass: a field, what follows it, a record.
#![tactic(auto)]

ghost use Rattle.std.specs.Prelude.{◌≡◌, ◌<◌, IsTrue, length, drop};
ghost use Rattle.rfc4180.specs.Grammar.{is_text, is_quotable};
ghost use Rattle.rfc4180.specs.Reading.{part, text_end, close_at, begins, followed, field_at, record_at, Scans, HandsBack};

// The number of fields that a record of the file has.
pub const FIELDS: usize = 9;

// From a place of a text to another, which is outside.
#[derive(Clone, Copy)]
pub struct Span {
    pub start: usize,
    pub end: usize,
}

// A field with what follows it: where it stands, whether it is its record's last, and where the next field or record starts.
#[derive(Clone, Copy)]
pub struct Piece {
    pub span: Span,
    pub last: bool,
    pub next: usize,
}

// A record of the grammar that was looked at: how many fields it has and where the next record starts.
#[derive(Clone, Copy)]
pub struct Scanned {
    pub count: usize,
    pub next: usize,
}

// TEXTDATA: what is printable, but for the quote and the comma.
#[tactic(auto, using(std::proofs::lemmas::Bool::Decides::nat_tests), unfolding(crate::specs::Grammar::is_text, lists::specs::Choice::within))]
fn text_data(c: u8) -> bool
    ensures { result ≡ is_text c }
{
    // One range and two bytes left out, which is fewer tests than three ranges.
    c != b'"' && c != b',' && matches!(c, b' '..=b'~')
}

// TEXTDATA / COMMA / CR / LF
#[tactic(auto, using(std::proofs::lemmas::Bool::Decides::nat_tests), unfolding(crate::specs::Grammar::is_quotable))]
fn quotable(c: u8) -> bool
    ensures { result ≡ is_quotable c }
{
    matches!(c, b',' | b'\r' | b'\n') || text_data(c)
}

// Where TEXTDATA from a place on ends.
#[tactic(auto, using(crate::proofs::Scan::ends))]
fn text_end(text: &[u8], at: usize) -> usize
    ensures { result ≡ text_end text.now at }
{
    let mut i = at;
    // By hand: a for over the places, or take_while, takes more steps for each field, which a text of commas alone shows.
    while i < text.len() && text_data(text[i]) {
        i += 1;
    }
    i
}

// Whether a byte stands at a place.
fn stands(text: &[u8], at: usize, byte: u8) -> bool
    ensures there { result ≡ begins byte (drop at text.now) }
    ensures inside { IsTrue result → at < length text.now }
{
    text.get(at) == Some(&byte)
}

// The quote that closes a field whose text starts at a place.
// A call of its own, so that the loop over a field without quotes stays short.
#[inline(never)]
#[tactic(auto, using(crate::proofs::Scan::closings))]
fn close(text: &[u8], at: usize) -> Option<usize>
    ensures { result ≡ close_at text.now at }
{
    let mut i = at;
    // By one byte, or two where they are doubled quotes: no iterator steps so.
    while i < text.len() {
        if text[i] == b'"' {
            if !stands(text, i + 1, b'"') {
                return Some(i);
            }
            i += 2;
        } else {
            if !quotable(text[i]) {
                return None;
            }
            i += 1;
        }
    }
    None
}

// A field that ended, with what stands there: a comma, a line end, the text's end, or what no field may have after it.
#[tactic(auto, using(crate::proofs::Scan::followings))]
fn ended(text: &[u8], span: Span, at: usize) -> Option<Piece>
    ensures { result ≡ followed text.now span at }
{
    if at >= text.len() {
        Some(Piece {
            span,
            last: true,
            next: at,
        })
    } else if stands(text, at, b',') {
        Some(Piece {
            span,
            last: false,
            next: at + 1,
        })
    } else if stands(text, at, b'\r') && stands(text, at + 1, b'\n') {
        Some(Piece {
            span,
            last: true,
            next: at + 2,
        })
    } else {
        None
    }
}

// The field at a place, in quotes or not.
#[tactic(auto, using(crate::proofs::Pieces::close_in_text), unfolding(crate::specs::Reading::field_at, crate::specs::Reading::opens, crate::specs::Reading::enclosed))]
fn field_at(text: &[u8], at: usize) -> Option<Piece>
    ensures { result ≡ field_at text.now at }
{
    if stands(text, at, b'"') {
        let start = at + 1;
        let end = close(text, start)?;
        ended(text, Span { start, end }, end + 1)
    } else {
        let end = text_end(text, at);
        ended(text, Span { start: at, end }, end)
    }
}

// The record at a place. Where its first FIELDS fields stand goes into the lent list; the count goes on past FIELDS.
pub fn record(text: &[u8], at: usize, spans: &mut [Span; FIELDS]) -> Option<Scanned>
    ensures { Scans (record_at text.now at) spans.old spans.new result }
{
    let mut count = 0;
    let mut next = at;
    // One field after another, each as long as it is: no iterator has them.
    loop {
        let piece = field_at(text, next)?;
        if count < FIELDS {
            spans[count] = piece.span;
        }
        count += 1;
        next = piece.next;
        if piece.last {
            return Some(Scanned { count, next });
        }
    }
}

// The bytes of a text from one place to another.
#[tactic(auto, using(crate::proofs::Scan::part_cut))]
fn part(text: &[u8], span: Span) -> &[u8]
    ensures { result.now ≡ part text.now span }
{
    let end = span.end.min(text.len());
    &text[span.start.min(end)..end]
}

// Field k of a record that was read, from the count and the places that `record` gave: the part of the text between its separators, enclosing
// quotes dropped. A k that the record does not have, or from FIELDS on, gives the empty part.
// The count stands beside the places: it goes on past FIELDS, and field k of a record that has none is the empty part.
pub fn field<'a, 'b>(text: &'a [u8], count: usize, spans: &'b [Span; FIELDS], k: usize) -> &'a [u8]
    ensures { HandsBack text.now count spans.now k result.now }
{
    if k < count.min(FIELDS) {
        part(text, spans[k])
    } else {
        &text[..0]
    }
}
