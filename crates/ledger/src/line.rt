// The ledger's line as bytes, for a buffer that a caller lends.
ghost use Rattle.std.specs.Prelude.{◌≡◌, ◌+◌, ◌≤◌, ◌<◌, length, drop};
ghost use Rattle.ledger.specs.Ledger.{decimal, line};
ghost use Rattle.ledger.specs.Line.{Put, Field, sorts, line_into, LineTells};

use crate::Ledger;

// The longest line's bytes: 46 of text, and five figures of at most 20 digits.
const LONGEST: usize = 146;

// The ASCII byte of a digit.
fn digit(n: u64) -> u8
    requires { n < 10 }
    ensures { result ≡ 48 + n }
{
    48 + n as u8
}

// A page that is written from its end, since a number's last digit is found first: the text stands from its start on.
#[derive(Drop)]
struct Page {
    bytes: [u8; LONGEST],
    start: usize,
    ghost within: { start ≤ 146 },
}

impl Page {
    fn blank() -> Self
        ensures { result.start ≡ 146 }
    {
        Page {
            bytes: [0; LONGEST],
            start: LONGEST,
        }
    }

    // What the page says so far.
    fn text(&self) -> &[u8]
        ensures { result.now ≡ drop self.now.start self.now.bytes }
    {
        &self.bytes[self.start..]
    }

    // Writes a number before what stands.
    fn put_number(&mut self, n: u64)
        requires { 20 ≤ self.old.start }
        ensures { Put (decimal n) self.old.bytes self.old.start self.new.bytes self.new.start }
    {
        let mut here = self.start;
        let mut rest = n;
        // Stays a `while`: how many digits there are shows only as they are written, and no list of them is built beside the page.
        while 10 <= rest {
            here -= 1;
            self.bytes[here] = digit(rest % 10);
            rest /= 10;
        }
        here -= 1;
        self.bytes[here] = digit(rest);
        self.start = here;
    }

    // Writes a text before what stands.
    fn put_text(&mut self, text: &[u8])
        requires { length text.now ≤ self.old.start }
        ensures { Put text.now self.old.bytes self.old.start self.new.bytes self.new.start }
    {
        let end = self.start;
        self.start -= text.len();
        self.bytes[self.start..end].copy_from_slice(text);
    }

    // Writes a figure, and its name before it.
    fn put_field(&mut self, name: &[u8], figure: u64)
        requires { length name.now + 20 ≤ self.old.start }
        ensures { Field name.now figure self.old.bytes self.old.start self.new.bytes self.new.start }
    {
        self.put_number(figure);
        self.put_text(name);
    }

    // Writes the line's figures after the first. They are at most 120 bytes.
    fn put_sorts(&mut self, l: Ledger)
        requires { 120 ≤ self.old.start }
        ensures { Put (sorts l) self.old.bytes self.old.start self.new.bytes self.new.start }
    {
        self.put_field(b" unsettled ", l.unsettled);
        self.put_field(b" absent ", l.absent);
        self.put_field(b" faulted ", l.faulted);
        self.put_field(b" translated ", l.translated);
    }

    // Writes the whole line.
    fn put_line(&mut self, l: Ledger)
        requires { 146 ≤ self.old.start }
        ensures { Put (line l) self.old.bytes self.old.start self.new.bytes self.new.start }
    {
        self.put_sorts(l);
        self.put_field(b"asked ", l.asked);
    }
}

// Writes the ledger's line over a buffer's first bytes, and gives how many it wrote; None where the buffer is too short. Only a page that
// holds the whole line tells its length, so the line is made on a page of its own: a buffer that is too short is left as it was.
pub fn write_line(l: Ledger, buffer: &mut [u8]) -> Option<usize>
    ensures { LineTells (line_into l buffer.old) result buffer.new }
{
    let mut page = Page::blank();
    page.put_line(l);
    let text = page.text();
    let size = text.len();
    if buffer.len() < size {
        return None;
    }
    buffer[..size].copy_from_slice(text);
    Some(size)
}
