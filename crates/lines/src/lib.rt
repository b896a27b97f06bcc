// The lines that a chip's records are listed in, put on a page one behind the other.

#![tactic(auto)]

ghost use Rattle.std.specs.Prelude.{[], ◌∷◌, ◌++◌, ◌≡◌, ◌+◌, ◌≤◌, ◌<◌, length};
ghost use Rattle.lines.specs.Text.{space, field, state, key_field, line_of, bad_line, header_line, refused_line};
ghost use Rattle.lines.specs.Pages.{HasRoom, Puts};

use chip::Laid;
use format::Record;

// A buffer that is filled from its first byte on, and the place behind the last line: so many of its bytes are text.
#[derive(Drop)]
pub struct Page<'a> {
    pub out: &'a mut [u8],
    pub at: usize,
}

impl<'a> Page<'a> {
    // An empty page.
    pub fn new(out: &'a mut [u8]) -> Page<'a>
        ensures { (result.out.ghost_name ≡ out.entry.ghost_name) × (result.out.now ≡ out.old) × (result.at ≡ 0) }
    {
        Page { out, at: 0 }
    }

    // Bytes as they are.
    pub fn put(&mut self, bytes: &[u8])
        requires { HasRoom self.old (length bytes.now) }
        ensures { Puts self.old bytes.now self.new }
    {
        chip::land::<Laid>(self.out, self.at, bytes);
        self.at += bytes.len();
    }

    // R16.8: the digits of a field, and the byte behind them.
    fn put_ended(&mut self, digits: &[u8], end: u8)
        requires { HasRoom self.old (length digits.now + 1) }
        ensures { Puts self.old (digits.now ++ (end ∷ [])) self.new }
    {
        self.put(digits);
        self.put(&[end]);
    }

    // R16.8: a number in decimal and the byte behind it. By the kit's `decimal` (and `hex`), whose contracts say the digits in a fixed buffer.
    pub fn put_field(&mut self, n: usize, end: u8)
        requires { (n < 100000) × HasRoom self.old 6 }
        ensures { Puts self.old (field n end) self.new }
    {
        let mut digits = [0u8; 20];
        let k = io::decimal(n as u64, &mut digits);
        self.put_ended(&digits[..k], end);
    }

    // R16.8, R16.9: a region, a place in it, and the byte behind that.
    fn put_place(&mut self, region: usize, place: usize, end: u8)
        requires { (region < 100000) × (place < 100000) × HasRoom self.old 12 }
        ensures { Puts self.old (field region space ++ field place end) self.new }
    {
        self.put_field(region, b' ');
        self.put_field(place, end);
    }

    // R16.8: "live " or "dead ".
    fn put_state(&mut self, rec: Record)
        requires { HasRoom self.old 5 }
        ensures { Puts self.old (state rec) self.new }
    {
        self.put(if rec.is_live() { b"live " } else { b"dead " });
    }

    // R16.8: a key in 16 hexadecimal digits, and a space.
    fn put_key(&mut self, key: u64)
        requires { HasRoom self.old 17 }
        ensures { Puts self.old (key_field key) self.new }
    {
        let mut digits = [0u8; 16];
        let k = io::hex(key, 16, &mut digits);
        self.put_ended(&digits[..k], b' ');
    }

    // R16.8: the line of a record of a region.
    pub fn put_line(&mut self, region: usize, rec: Record)
        requires { (region < 100000) × (rec.at < 100000) × (15 ≤ rec.len) × (rec.len < 100000) × HasRoom self.old 40 }
        ensures { Puts self.old (line_of region rec) self.new }
    {
        self.put_place(region, rec.at, b' ');
        self.put_state(rec);
        self.put_key(rec.key);
        self.put_field(rec.len - Record::LEAST, b'\n');
    }

    // R16.9: the line of a bad place.
    pub fn put_bad(&mut self, region: usize, place: usize)
        requires { (region < 100000) × (place < 100000) × HasRoom self.old 16 }
        ensures { Puts self.old (bad_line region place) self.new }
    {
        self.put(b"bad ");
        self.put_place(region, place, b'\n');
    }

    // R16.8: the first line.
    pub fn put_header(&mut self)
        requires { HasRoom self.old 29 }
        ensures { Puts self.old header_line self.new }
    {
        self.put(b"region place state key bytes\n");
    }

    // R16.7: the one line of an input that is none.
    pub fn put_refused(&mut self)
        requires { HasRoom self.old 8 }
        ensures { Puts self.old refused_line self.new }
    {
        self.put(b"refused\n");
    }
}
